//! Worked replies and counts. The functions do nothing.
ghost use Rattle.cc_replies.specs.RefusalExamples as refusal;
ghost use Rattle.cc_replies.specs.StaleExamples as stale;

/// Jobs with one reply that tells of a refusal, and such ones with none.
pub fn refusals()
    ensures long_text { refusal.LongTextIsRefused }
    ensures longest_text { refusal.LongestTextIsPut }
    ensures too_many { refusal.ModuleTooManyIsRefused }
    ensures last_module { refusal.LastModuleIsPut }
    ensures absent_drop { refusal.AbsentIsNotDropped }
    ensures absent_signature { refusal.AbsentHasNoSignature }
    ensures nothing { refusal.NothingIsRefused }
    ensures no_module { refusal.NoModuleIsRefused }
    ensures refused_signature { refusal.RefusedHasNoSignature }
    ensures cycles { refusal.CyclesAreRefused }
    ensures first_import { refusal.RefusedBeforeAbsent }
{}

/// How many modules checks find stale.
pub fn stale_modules()
    ensures puts { stale.PutsFindNoneStale }
    ensures drops { stale.DropsFindNoneStale }
    ensures policies { stale.PoliciesFindNoneStale }
    ensures certificates { stale.CertificatesFindNoneStale }
    ensures checks { stale.TwoOfFourChecks }
    ensures audits { stale.AuditsAndGuardsCheck }
    ensures put_again { stale.PutAgainBeforeACheck }
    ensures put_later { stale.PutAgainBehindACheck }
{}
