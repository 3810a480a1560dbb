//! What comes of a definition where it stands, with what was found of its claim.

ghost use Rattle.std.specs.Prelude.{◌≡◌, ◌++◌, Some, Ok, IfOk, OnOk};
ghost use Rattle.std.specs.Option.{option_map};
ghost use Rattle.cc_core.specs.Places.{spots};
ghost use Rattle.cc_core.specs.TermViews.{type_of, note_of, term_of};
ghost use Rattle.cc_mnf.specs.CoreModules as core;
ghost use Rattle.cc_vouching.specs.VouchedDefinitions as plain;
ghost use Rattle.cc_vouching.specs.ClaimedOutcomes.{outcome_signed};
ghost use Rattle.cc_vouch.specs.BindViews.{binds_of};
ghost use Rattle.cc_vouch.specs.KnownOutcomes as known_outcome;
ghost use Rattle.cc_vouch.specs.VouchViews.{proof_of, claimed_of, agreed_of, definition_of, outcome_of, Grows, GrowsLater};

use crate::claims::Found;
use crate::differences::first_difference;
use crate::signature::signature;
use cc_base::code::{Code, Diag};
use cc_base::name::Name;
use cc_base::place::Place;
use cc_certificate_reading::Cert;
use cc_core::same::{same_shape, same_type};
use cc_core::{CoreDef, Node, Note, Ty};
use cc_filled::is_filled_as;
use std::alloc::{AllocError, Global};
use std::rc::Rc;

/// A definition that is vouched for.
#[derive(Drop)]
pub struct Vouched {
    pub name: Name,
    /// The term of its certificate.
    pub value: Rc<Node>,
    /// The type that others see.
    pub sig: Ty,
    pub recursive: bool,
}

/// Why a definition is not vouched for.
#[derive(Drop)]
pub enum Reason {
    /// There is no claim of its name.
    NoClaim,
    /// The bytes of the claim are no certificate: the first line that does not fit.
    BadLine(u32),
    /// They are one that is not valid: the first node that breaks its rule, or whose names do not fit.
    BadNode(u32),
    /// The certificate's term is not the right side with its omitted sets filled in.
    AnotherTerm,
    /// The bind is not what stands there.
    AnotherBind(usize),
    /// The type has no signature, or not that of the type that is written.
    Refused(Diag),
}

/// What comes of a definition.
#[derive(Drop)]
pub enum Outcome {
    VouchedFor(Vouched),
    NotVouchedFor(Reason),
}

// The same type.
fn copy_type(ty: &Ty) -> Result<Ty, AllocError>
    ensures { IfOk result (λ t. type_of t ≡ type_of ty.now) }
{
    ty.clone()
}

// The type that is written for a definition, where this one is proved.
fn written_type(note: &Note, ty: &Ty) -> Result<Ty, AllocError>
    ensures { IfOk result (λ t. type_of t ≡ plain.written_type (note_of note.now) (type_of ty.now)) }
{
    match note {
        Note::Absent => copy_type(ty),
        Note::Written(written) => copy_type(written),
        Note::Own(shape) => {
            let shape = shape.clone()?;
            let set = ty.set.clone()?;
            Ok(Ty { shape, set })
        }
    }
}

// The code for a signature that is not the one of what is written.
fn code_of_difference(written: &Ty, sig: &Ty) -> Code
    ensures { result ≡ plain.code_of_difference (type_of written.now) (type_of sig.now) }
{
    if same_shape(&written.shape, &sig.shape) {
        Code::E15
    } else {
        Code::E14
    }
}

// Where the right side of the definition starts.
fn place_of(def: &CoreDef) -> Place
    ensures { result ≡ (spots (core.definition_of def.now).places).at }
{
    def.right.at
}

// A refusal.
fn refused(code: Code, place: Place) -> Result<Ty, Diag>
    ensures { agreed_of result ≡ plain.refused_at code place }
{
    Err(Diag { code, place })
}

// The signature of the type that is proved, where the one of what is written is the same.
fn same_or_refused(def: &CoreDef, sig: Ty, written: &Ty) -> Result<Ty, Diag>
    ensures { agreed_of result ≡ plain.agreed_signature (core.definition_of def.now) (Some (type_of sig)) (Some (type_of written.now)) }
{
    if same_type(written, &sig) {
        return Ok(sig);
    }
    refused(code_of_difference(written, &sig), place_of(def))
}

// The same where there may be none of what is written.
fn agreed_with(def: &CoreDef, sig: Ty, written: Option<Ty>) -> Result<Ty, Diag>
    ensures { agreed_of result ≡ plain.agreed_signature (core.definition_of def.now) (Some (type_of sig)) (option_map type_of written) }
{
    match written {
        Some(other) => same_or_refused(def, sig, &other),
        None => refused(Code::E17, def.name_at),
    }
}

// The signature that is vouched for, where these are those of the type that is proved and of the one that is written.
fn agreed(def: &CoreDef, proved: Option<Ty>, written: Option<Ty>) -> Result<Ty, Diag>
    ensures { agreed_of result ≡ plain.agreed_signature (core.definition_of def.now) (option_map type_of proved) (option_map type_of written) }
{
    match proved {
        Some(sig) => agreed_with(def, sig, written),
        None => refused(Code::E17, def.name_at),
    }
}

// The bind of the definition itself, behind what is known, where it is recursive and has a signature.
fn add_own(known: &mut Vec<(Name, Ty)>, def: &CoreDef, sig: &Option<Ty>) -> Result<(), AllocError>
    ensures { OnOk result (binds_of known.new.items ≡ binds_of known.old.items ++ plain.own_bind (core.definition_of def.now) (option_map type_of sig.now)) }
{
    match sig {
        None => Ok(()),
        Some(ty) => {
            if !def.recursive {
                return Ok(());
            }
            let name = def.name.clone()?;
            let ty = copy_type(ty)?;
            known.push((name, ty))?;
            Ok(())
        }
    }
}

// The bind of the definition for those behind it, where it is not there yet.
fn add_later(known: &mut Vec<(Name, Ty)>, def: &CoreDef, sig: &Ty) -> Result<(), AllocError>
    ensures { OnOk result (binds_of known.new.items ≡ binds_of known.old.items ++ known_outcome.later_bind (core.definition_of def.now) (type_of sig.now)) }
{
    if def.recursive {
        return Ok(());
    }
    let name = def.name.clone()?;
    let ty = copy_type(sig)?;
    known.push((name, ty))?;
    Ok(())
}

// The definition of the signature, with the term of the certificate.
fn definition_for(def: &CoreDef, cert: &Cert, ty: &Ty, sig: Ty) -> Result<Vouched, AllocError>
    ensures { IfOk result (λ it. definition_of it ≡ plain.vouched_definition (core.definition_of def.now) (proof_of cert.now ty.now) (type_of sig)) }
{
    let name = def.name.clone()?;
    let value = cert.term.clone()?;
    let _ = ty;
    Ok(Vouched {
        name,
        value,
        sig,
        recursive: def.recursive,
    })
}

// What comes of a definition of the signature, which the certificate is about.
fn vouched_for(
    known: &mut Vec<(Name, Ty)>,
    def: &CoreDef,
    cert: &Cert,
    ty: &Ty,
    sig: Ty,
) -> Result<Outcome, AllocError>
    ensures outcome { IfOk result (λ o. outcome_of o ≡ outcome_signed (core.definition_of def.now) (proof_of cert.now ty.now) (Ok (type_of sig))) }
    ensures known { IfOk result (λ o. GrowsLater (core.definition_of def.now) known.old.items o known.new.items) }
{
    add_later(known, def, &sig)?;
    let it = definition_for(def, cert, ty, sig)?;
    Ok(Outcome::VouchedFor(it))
}

// What comes of a definition which the certificate is about, where this is the signature of the type that is proved.
fn outcome_about(
    alloc: Global,
    devices: usize,
    known: &mut Vec<(Name, Ty)>,
    def: &CoreDef,
    cert: &Cert,
    ty: &Ty,
    proved: Option<Ty>,
) -> Result<Outcome, AllocError>
    ensures outcome { IfOk result (λ o. outcome_of o ≡ known_outcome.outcome_about devices (core.definition_of def.now) (proof_of cert.now ty.now) (option_map type_of proved)) }
    ensures known { IfOk result (λ o. GrowsLater (core.definition_of def.now) known.old.items o known.new.items) }
{
    let other = written_type(&def.note, ty)?;
    let written = signature(alloc, cert.binds.as_slice(), devices, &other)?;
    match agreed(def, proved, written) {
        Ok(sig) => vouched_for(known, def, cert, ty, sig),
        Err(diag) => Ok(Outcome::NotVouchedFor(Reason::Refused(diag))),
    }
}

/// What comes of a definition whose claim is a valid certificate, which concludes the type. What is known are the binds of
/// the devices, of what is found for the imports, and of the definitions before this one; it grows by the bind of this one
/// where it is vouched for.
///
/// Fails only for want of memory.
pub fn outcome_proven(
    alloc: Global,
    devices: usize,
    known: &mut Vec<(Name, Ty)>,
    def: &CoreDef,
    cert: &Cert,
    ty: &Ty,
) -> Result<Outcome, AllocError>
    ensures outcome { IfOk result (λ o. outcome_of o ≡ known_outcome.outcome_proven devices (binds_of known.old.items) (core.definition_of def.now) (proof_of cert.now ty.now)) }
    ensures known { IfOk result (λ o. Grows known.old.items o known.new.items) }
{
    if !is_filled_as(&def.right, &cert.term) {
        return Ok(Outcome::NotVouchedFor(Reason::AnotherTerm));
    }
    let proved = signature(alloc, cert.binds.as_slice(), devices, ty)?;
    add_own(known, def, &proved)?;
    match first_difference(cert.binds.as_slice(), known.as_slice()) {
        Some(number) => Ok(Outcome::NotVouchedFor(Reason::AnotherBind(number))),
        None => outcome_about(alloc, devices, known, def, cert, ty, proved),
    }
}

/// What comes of a definition with what was found of its claim.
pub fn outcome_found(
    alloc: Global,
    devices: usize,
    known: &mut Vec<(Name, Ty)>,
    def: &CoreDef,
    found: &Found,
) -> Result<Outcome, AllocError>
    ensures outcome { IfOk result (λ o. outcome_of o ≡ known_outcome.outcome_known devices (binds_of known.old.items) (core.definition_of def.now) (claimed_of found.now)) }
    ensures known { IfOk result (λ o. Grows known.old.items o known.new.items) }
{
    match found {
        Found::Misread(line) => Ok(Outcome::NotVouchedFor(Reason::BadLine(*line))),
        Found::Broken(number) => Ok(Outcome::NotVouchedFor(Reason::BadNode(*number))),
        Found::Proven(cert, ty) => outcome_proven(alloc, devices, known, def, cert, ty),
    }
}
