//! The two passes over the nodes: from the last one to the first the claims are read at their places, and from the first
//! one to the last the derivations are built.

ghost use Rattle.std.specs.Prelude.{◌≡◌, ◌≤◌, List, [], ◌∷◌, ◌++◌, length, map, reverse, IfOk};
ghost use Rattle.cc_core.specs.Derivations.{Derivation};
ghost use Rattle.cc_derivation.specs.DerivationViews.{der_of, premises_of};
ghost use Rattle.cc_validity.specs.Counting.{premise_list};
ghost use Rattle.cc_certificate_reading.specs.CertificateViews.{node_of};
ghost use Rattle.cc_certificate_judging.specs.Passes.{PlainReadNode, read_at, AreRead, Builds};
ghost use Rattle.cc_certificate_judging.specs.PassViews.{kinds_in, plain_read};

use crate::claims::claim_at;
use crate::places::wait_for;
use cc_certificate_reading::CertNode;
use cc_core::Ctx;
use cc_derivation::{Claim, Der, Premises, Rule};
use std::alloc::{AllocError, Global};
use std::rc::Rc;

/// A node whose claim is read: its rule, how many premises it has, and its claim.
#[derive(Drop)]
pub(crate) struct ReadNode {
    pub(crate) rule: Rule,
    pub(crate) count: usize,
    pub(crate) claim: Claim,
}

// A node of a derivation, or the list of a node's premises from one of them on.
#[derive(Drop)]
enum Part {
    Node(Rc<Der>),
    Rest(Rc<Premises>),
}

/// The parts of a derivation, in the order in which they are built. They are dropped from the last one on: each before the
/// parts that it has, which are still held then, so that dropping takes no stack for each node.
pub(crate) struct Held {
    parts: Vec<Part>,
}

impl Held {
    pub(crate) fn new(alloc: Global) -> Held {
        Held {
            parts: Vec::new(alloc),
        }
    }

    // Holds the node too.
    fn hold(&mut self, node: &Rc<Der>) -> Result<(), AllocError> {
        self.parts.push(Part::Node(node.clone()?))?;
        Ok(())
    }

    // Holds the rest of a list of premises too.
    fn hold_rest(&mut self, rest: &Rc<Premises>) -> Result<(), AllocError> {
        self.parts.push(Part::Rest(rest.clone()?))?;
        Ok(())
    }
}

impl Drop for Held {
    fn drop(self) {
        let Held { parts } = self;
        let mut left = parts;
        while let Some(part) = left.pop() {
            drop(part);
        }
    }
}

// The node, as it is read at the place where the entries are in scope.
fn read_node(alloc: Global, names: u32, ctx: &Ctx, node: &CertNode) -> Result<ReadNode, AllocError>
    ensures { IfOk result (λ read. plain_read read ≡ read_at names (kinds_in ctx.now) (node_of node.now)) }
{
    let claim = claim_at(alloc, names, ctx, node.rule, node.first, &node.claim)?;
    Ok(ReadNode {
        rule: node.rule,
        count: node.premises.len(),
        claim,
    })
}

/// The nodes as they are read, the last one first.
pub(crate) fn read_nodes(
    alloc: Global,
    ctx: &Ctx,
    nodes: &[CertNode],
) -> Result<Vec<ReadNode>, AllocError>
    requires { (reads : List PlainReadNode) × AreRead (length ctx.now) (kinds_in ctx.now ∷ []) (reverse (map node_of nodes.now)) reads }
    ensures { IfOk result (λ reads. AreRead (length ctx.now) (kinds_in ctx.now ∷ []) (reverse (map node_of nodes.now)) (map plain_read reads.items)) }
{
    let names = ctx.len();
    let mut reads = Vec::new(alloc);
    let mut waiting = Vec::new(alloc);
    waiting.push(ctx.clone()?)?;
    for node in nodes.iter().rev() {
        let Some(place) = waiting.pop() else {
            unreachable!()
        };
        reads.push(read_node(alloc, names, &place, node)?)?;
        wait_for(alloc, node.rule, node.premises.len(), &place, &mut waiting)?;
    }
    Ok(reads)
}

// The last derivations, so many, as premises in their order. Each list of them is held.
fn take_premises(
    alloc: Global,
    count: usize,
    built: &mut Vec<Rc<Der>>,
    held: &mut Held,
) -> Result<Premises, AllocError>
    requires { count ≤ length built.old.items }
    ensures count { IfOk result (λ p. length (premise_list (premises_of p)) ≡ count) }
    ensures taken { IfOk result (λ p. map (λ d. der_of d.value) built.old.items ≡ map (λ d. der_of d.value) built.new.items ++ premise_list (premises_of p)) }
{
    let mut premises = Premises::End;
    for _ in 0..count {
        let Some(last) = built.pop() else {
            unreachable!()
        };
        let rest = Rc::new(alloc, premises)?;
        held.hold_rest(&rest)?;
        premises = Premises::More(last, rest);
    }
    Ok(premises)
}

/// The derivation that the nodes build, which stand with the last one first. Each part of it is held.
pub(crate) fn build(
    alloc: Global,
    reads: Vec<ReadNode>,
    held: &mut Held,
) -> Result<Rc<Der>, AllocError>
    requires { (root : Derivation) × Builds [] (reverse (map plain_read reads.items)) root }
    ensures { IfOk result (λ root. Builds [] (reverse (map plain_read reads.items)) (der_of root.value)) }
{
    let mut left = reads;
    let mut built = Vec::new(alloc);
    while let Some(node) = left.pop() {
        let ReadNode { rule, count, claim } = node;
        let premises = take_premises(alloc, count, &mut built, &mut *held)?;
        let made = Rc::new(
            alloc,
            Der {
                rule,
                claim,
                premises,
            },
        )?;
        held.hold(&made)?;
        built.push(made)?;
    }
    match built.pop() {
        Some(root) => Ok(root),
        None => unreachable!(),
    }
}
