//! What replies to several commands about one definition have to do with each other.
ghost use Rattle.cc_program.specs.ReplyPairs.{AuditsTellDecisions, DecisionsAreTold, GuardsFollowAudits, GuardsShowRuns, AllowedRunsAreGuarded, ReplaysHaveEntries, ReplaysCompareTraces, ShownGuardedRunsAreReplayed};

/// The lines of an audit are exactly what the rules in force decide for the devices of the definition's authority.
pub fn audits_tell_decisions()
    ensures told { AuditsTellDecisions }
    ensures decided { DecisionsAreTold }
{}

/// A definition is run under a guard exactly where each line of its audit allows, and what is shown then is what is shown of
/// any run of it.
pub fn guards_follow_audits()
    ensures audits { GuardsFollowAudits }
    ensures runs { GuardsShowRuns }
    ensures allowed { AllowedRunsAreGuarded }
{}

/// Lines that are replayed agree exactly where they are a trace, and else differ at the first line with which no trace goes
/// on. What is shown of a guarded run agrees.
pub fn replays_compare_traces()
    ensures entries { ReplaysHaveEntries }
    ensures traces { ReplaysCompareTraces }
    ensures guarded { ShownGuardedRunsAreReplayed }
{}
