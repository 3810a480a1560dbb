//! Certificates judged: whether the tree of the nodes is a valid derivation of the term.

ghost use Rattle.std.specs.Prelude.{◌≡◌, ◌^◌, ◌<◌, [], ◌∷◌, length, map, IfOk};
ghost use Rattle.cc_core.specs.Contexts.{entry_of};
ghost use Rattle.cc_core.specs.Typing.{HasType};
ghost use Rattle.cc_core.specs.TermViews.{type_of, term_of, context_of};
ghost use Rattle.cc_core.specs.Derivations as derivations;
ghost use Rattle.cc_core.specs.Shapes.{CapturingType};
ghost use Rattle.cc_derivation.specs.DerivationViews.{der_of};
ghost use Rattle.cc_checking.specs.DerivationSizes.{nodes};
ghost use Rattle.cc_certificate_text.specs.Certificates.{Start, AllFit, IsWhole, behind_lines};
ghost use Rattle.cc_certificate_reading.specs.CertificateViews.{node_of, lines_of};
ghost use Rattle.cc_certificate_judging.specs.Judging.{NodeTree, listed, read_tree, with_binds, bind_type, binds_of, IsAnswer, IsJudged};
ghost use Rattle.cc_certificate_judging.specs.JudgedResults.{OnJudgement};
ghost use Rattle.cc_certificate_judging.specs.PassViews.{kinds_in};

use crate::error::JudgeError;
use crate::passes::{Held, build, read_nodes};
use cc_base::name::Name;
use cc_certificate_reading::{Cert, CertNode};
use cc_core::{Bind, Ctx, Node, Ty};
use cc_derivation::{Claim, Der};
use cc_validity::{ValidityError, valid};
use std::alloc::{AllocError, Global};
use std::rc::Rc;

// The context with a variable of terms more.
fn with_bind(alloc: Global, ctx: &Ctx, ty: &Ty) -> Result<Ctx, AllocError>
    ensures { IfOk result (λ inner. context_of inner ≡ entry_of (type_of ty.now) ∷ context_of ctx.now) }
{
    let entry = Bind::Var(ty.clone()?);
    ctx.push(alloc, entry)
}

// The context of the binds.
fn context_of_binds(alloc: Global, binds: &[(Name, Ty)]) -> Result<Ctx, AllocError>
    ensures { IfOk result (λ ctx. context_of ctx ≡ with_binds [] (map bind_type binds.now)) }
{
    let mut ctx = Ctx::new();
    for bind in binds.iter() {
        ctx = with_bind(alloc, &ctx, &bind.1)?;
    }
    Ok(ctx)
}

// The derivation that the nodes are, read in the context. Each part of it is held.
fn derivation_of(
    alloc: Global,
    ctx: &Ctx,
    nodes: &[CertNode],
    held: &mut Held,
) -> Result<Rc<Der>, AllocError>
    requires { (tree : NodeTree) × (listed 0 tree ≡ map node_of nodes.now) }
    ensures { IfOk result (λ der. (tree : NodeTree) → listed 0 tree ≡ map node_of nodes.now → der_of der.value ≡ read_tree (length ctx.now) (kinds_in ctx.now) tree) }
{
    let reads = read_nodes(alloc, ctx, nodes)?;
    build(alloc, reads, held)
}

// The type that a derivation concludes, where no node breaks its rule.
fn concluded(der: &Der) -> Result<Ty, AllocError>
    requires { (type : CapturingType) × derivations.Concludes (der_of der.now) (derivations.OfType type) }
    ensures { IfOk result (λ ty. derivations.Concludes (der_of der.now) (derivations.OfType (type_of ty))) }
{
    match &der.claim {
        Claim::Typed(ty) => ty.clone(),
        _ => unreachable!(),
    }
}

// The answer for a derivation.
fn answer_for(alloc: Global, ctx: &Ctx, term: &Rc<Node>, der: &Rc<Der>) -> Result<Ty, JudgeError>
    requires { nodes (der_of der.now.value) < 2 ^ 32 }
    ensures { OnJudgement (IsAnswer (context_of ctx.now) (term_of term.now.value) (der_of der.now.value)) result }
{
    match valid(alloc, ctx, term, der) {
        Ok(()) => match concluded(der) {
            Ok(ty) => Ok(ty),
            Err(_) => Err(JudgeError::NoMemory),
        },
        Err(ValidityError::NoMemory) => Err(JudgeError::NoMemory),
        Err(ValidityError::BadNode { number }) => Err(JudgeError::BadNode { number }),
    }
}

/// Judges a certificate that was read: answers the type that the last node concludes where the tree of the nodes, with
/// the names of each claim read at its place, is a valid derivation of the term in the context of the binds.
///
/// It is refused, as `BadNode`, with the least number of a node that breaks its rule, or whose names do not fit its
/// place: a local name that names no binder in scope there, or one of the other kind, or binders that are not numbered
/// from the local names on. Nodes in the trees of the premises of a node that does not fit have no place, and break no
/// rule. Else it fails only for want of memory.
///
/// Nodes are gone through by loops, and dropped by one, so the depth of calls grows with the height of terms and types and
/// with the number of elements of a set, and not with the number of nodes.
pub fn judge(alloc: Global, cert: &Cert) -> Result<Ty, JudgeError>
    requires fit { AllFit Start (lines_of cert.now) }
    requires whole { IsWhole (behind_lines Start (lines_of cert.now)) }
    ensures judged { OnJudgement (IsJudged (binds_of cert.now) (term_of cert.now.term.value) (map node_of cert.now.nodes.items)) result }
    ensures typed { IfOk result (λ ty. HasType (binds_of cert.now) (term_of cert.now.term.value) (type_of ty)) }
{
    let ctx = context_of_binds(alloc, cert.binds.as_slice())?;
    let mut held = Held::new(alloc);
    let der = derivation_of(alloc, &ctx, cert.nodes.as_slice(), &mut held)?;
    answer_for(alloc, &ctx, &cert.term, &der)
}
