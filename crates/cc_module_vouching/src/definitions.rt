//! What is answered to the definitions of a module, one after another.

ghost use Rattle.std.specs.Prelude.{◌≡◌, List, Some, map, IfOk};
ghost use Rattle.cc_mnf.specs.CoreModules as core;
ghost use Rattle.cc_vouching.specs.Submissions as submission;
ghost use Rattle.cc_vouching.specs.VouchedDefinitions as plain;
ghost use Rattle.cc_vouching.specs.VouchedModules.{RefusesDefinition};
ghost use Rattle.cc_vouch.specs.VouchViews.{reason_of, outcome_of, Grows};
ghost use Rattle.cc_module_vouching.specs.ClaimViews.{claim_of, FindsClaims};
ghost use Rattle.cc_module_vouching.specs.AnswerViews.{answer_of};
ghost use Rattle.cc_module_vouching.specs.AnsweredDefinitions.{ComesOf, GoesOn, AnswersAll};

use crate::answers::Answer;
use crate::claims::{Claim, ClaimPlaces, claim_named, places_of};
use cc_base::name::Name;
use cc_core::{CoreDef, Ty};
use cc_vouch::claims::found_of;
use cc_vouch::definitions::{Outcome, Reason, Vouched, outcome_found};
use std::alloc::{AllocError, Global};

// What comes of a definition where these bytes are claimed to be its certificate.
fn outcome_judged(
    alloc: Global,
    devices: usize,
    known: &mut Vec<(Name, Ty)>,
    def: &CoreDef,
    bytes: &[u8],
) -> Result<Outcome, AllocError>
    ensures outcome { IfOk result (λ o. (claims : List submission.Claim) → plain.claim_named def.now.name claims ≡ Some bytes.now → ComesOf devices known.old.items (core.definition_of def.now) claims (outcome_of o)) }
    ensures known { IfOk result (λ o. Grows known.old.items o known.new.items) }
{
    let found = found_of(alloc, bytes)?;
    let outcome = outcome_found(alloc, devices, known, def, &found)?;
    Ok(outcome)
}

// What comes of a definition with the claims of its module.
fn outcome_claimed(
    alloc: Global,
    devices: usize,
    known: &mut Vec<(Name, Ty)>,
    def: &CoreDef,
    claims: &[Claim],
    places: &ClaimPlaces,
) -> Result<Outcome, AllocError>
    requires { FindsClaims places.now claims.now }
    ensures outcome { IfOk result (λ o. ComesOf devices known.old.items (core.definition_of def.now) (map claim_of claims.now) (outcome_of o)) }
    ensures known { IfOk result (λ o. Grows known.old.items o known.new.items) }
{
    match claim_named(claims, places, &def.name) {
        Some(claim) => outcome_judged(alloc, devices, known, def, claim.certificate.as_slice()),
        None => Ok(Outcome::NotVouchedFor(Reason::NoClaim)),
    }
}

// Goes on by one definition, or else answers the reason why it is not vouched for.
fn vouch_next(
    alloc: Global,
    devices: usize,
    known: &mut Vec<(Name, Ty)>,
    vouched: &mut Vec<Vouched>,
    def: &CoreDef,
    claims: &[Claim],
    places: &ClaimPlaces,
) -> Result<Option<Reason>, AllocError>
    requires { FindsClaims places.now claims.now }
    ensures { IfOk result (λ refused. GoesOn devices (map claim_of claims.now) (core.definition_of def.now) known.old.items vouched.old.items known.new.items vouched.new.items refused) }
{
    let outcome = outcome_claimed(alloc, devices, known, def, claims, places)?;
    match outcome {
        Outcome::VouchedFor(it) => {
            vouched.push(it)?;
            Ok(None)
        }
        Outcome::NotVouchedFor(reason) => Ok(Some(reason)),
    }
}

// The refusal of a definition for the reason.
fn refused(def: &CoreDef, reason: Reason) -> Result<Answer, AllocError>
    ensures { IfOk result (λ a. answer_of a ≡ RefusesDefinition def.now.name (reason_of reason)) }
{
    let name = def.name.clone()?;
    Ok(Answer::RefusesDefinition(name, reason))
}

// What is answered to the definitions, where the claims are found by their places.
fn answer_all(
    alloc: Global,
    devices: usize,
    known: Vec<(Name, Ty)>,
    defs: &[CoreDef],
    claims: &[Claim],
    places: &ClaimPlaces,
) -> Result<Answer, AllocError>
    requires { FindsClaims places.now claims.now }
    ensures { IfOk result (λ a. AnswersAll devices known.items (map claim_of claims.now) (map core.definition_of defs.now) (answer_of a)) }
{
    let mut known = known;
    let mut vouched = Vec::with_capacity(alloc, defs.len())?;
    for def in defs {
        let refusal = vouch_next(
            alloc,
            devices,
            &mut known,
            &mut vouched,
            def,
            claims,
            places,
        )?;
        if let Some(reason) = refusal {
            return refused(def, reason);
        }
    }
    Ok(Answer::Vouches(vouched))
}

/// What is answered to definitions with the claims of their module, where these binds are known before the first. Fails only
/// for want of memory.
pub(crate) fn answer_definitions(
    alloc: Global,
    devices: usize,
    known: Vec<(Name, Ty)>,
    defs: &[CoreDef],
    claims: &[Claim],
) -> Result<Answer, AllocError>
    ensures { IfOk result (λ a. AnswersAll devices known.items (map claim_of claims.now) (map core.definition_of defs.now) (answer_of a)) }
{
    let places = places_of(alloc, claims)?;
    answer_all(alloc, devices, known, defs, claims, &places)
}
