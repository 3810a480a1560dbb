//! What is made of a derivation: the number of its nodes, and the derivation itself where it is built.

ghost use Rattle.std.specs.Prelude.{◌≡◌, false, List, [], ◌∷◌, ◌++◌, map, IfOk, MatchOption};
ghost use Rattle.cc_core.specs.Captured.{variable_set};
ghost use Rattle.cc_core.specs.Derivations.{Derivation, Node, ByCapturing, ByVariable, BySet, ShapeBelow, TypeBelow, SetBelow, OfType};
ghost use Rattle.cc_core.specs.Substitution.{single};
ghost use Rattle.cc_core.specs.TermViews.{shape_of, type_of};
ghost use Rattle.cc_derivation.specs.DerivationViews.{rule_of, claim_of, premises_of, der_of};
ghost use Rattle.cc_checking.specs.CanonicalDerivations.{member_derived};
ghost use Rattle.cc_derive.specs.Trees.{IsMade, IsParts, listed};
ghost use Rattle.cc_derive.specs.declared.trees.Making.{Making};

use cc_capture::{CapSet, Elem, Var};
use cc_core::{Shape, Ty};
use cc_derivation::{Claim, Der, Premises, Rule};
use std::alloc::{AllocError, Global};
use std::rc::Rc;

/// Whether derivations are built, and how far their nodes are counted.
#[derive(Clone, Copy)]
pub struct Making {
    /// Whether they are built.
    pub whole: bool,
    /// A number of nodes that is told is exact where it is below this one, and else no more than they are.
    pub limit: u64,
}

/// What is made of one derivation.
#[derive(Drop)]
pub struct Tree {
    /// How many nodes it has, as far as they are counted.
    pub nodes: u64,
    /// The derivation, where it is built.
    pub der: Option<Rc<Der>>,
}

/// What is made of the premises of a node.
#[derive(Drop)]
pub struct Parts {
    /// How many nodes they have together, as far as they are counted.
    pub nodes: u64,
    /// The premises, where they are built.
    pub ders: Option<Vec<Rc<Der>>>,
}

/// The same tree, shared.
pub fn share(tree: &Tree) -> Result<Tree, AllocError>
    ensures { IfOk result (λ t. (build : Making) (d : Derivation) → IsMade build tree.now d → IsMade build t d) }
{
    let der = share_der(&tree.der)?;
    Ok(Tree {
        nodes: tree.nodes,
        der,
    })
}

// The same derivation, shared, if there is one.
fn share_der(der: &Option<Rc<Der>>) -> Result<Option<Rc<Der>>, AllocError>
    ensures { IfOk result (λ r. (build : Making) (d : Derivation) → MatchOption der.now (build.whole ≡ false) (λ x. der_of x.value ≡ d) → MatchOption r (build.whole ≡ false) (λ x. der_of x.value ≡ d)) }
{
    match der {
        Some(der) => Ok(Some(der.clone()?)),
        None => Ok(None),
    }
}

/// No premises, which are built or not.
pub fn no_parts(alloc: Global, build: Making) -> Parts
    ensures { IsParts build result [] }
{
    if build.whole {
        Parts {
            nodes: 0,
            ders: Some(Vec::new(alloc)),
        }
    } else {
        Parts {
            nodes: 0,
            ders: None,
        }
    }
}

// The derivations with one more at the end, if all are built.
fn with_der(
    ders: Option<Vec<Rc<Der>>>,
    der: Option<Rc<Der>>,
) -> Result<Option<Vec<Rc<Der>>>, AllocError>
    ensures { IfOk result (λ r. (build : Making) (ds : List Derivation) (d : Derivation) → MatchOption ders (build.whole ≡ false) (λ v. map (λ x. der_of x.value) v.items ≡ ds)
        → MatchOption der (build.whole ≡ false) (λ x. der_of x.value ≡ d)
        → MatchOption r (build.whole ≡ false) (λ v. map (λ x. der_of x.value) v.items ≡ ds ++ d ∷ [])) }
{
    match ders {
        Some(mut all) => match der {
            Some(der) => {
                all.push(der)?;
                Ok(Some(all))
            }
            None => Ok(None),
        },
        None => Ok(None),
    }
}

/// The premises with one more at the end. Fails only for want of memory.
pub fn with_part(parts: Parts, tree: Tree) -> Result<Parts, AllocError>
    ensures { IfOk result (λ r. (build : Making) (ds : List Derivation) (d : Derivation) → IsParts build parts ds → IsMade build tree d → IsParts build r (ds ++ d ∷ [])) }
{
    let Parts { nodes, ders } = parts;
    let Tree { nodes: more, der } = tree;
    let nodes = nodes.saturating_add(more);
    let ders = with_der(ders, der)?;
    Ok(Parts { nodes, ders })
}

/// One premise. Fails only for want of memory.
pub fn one_part(alloc: Global, build: Making, first: Tree) -> Result<Parts, AllocError>
    ensures { IfOk result (λ p. (d : Derivation) → IsMade build first d → IsParts build p (d ∷ [])) }
{
    with_part(no_parts(alloc, build), first)
}

/// Two premises. Fails only for want of memory.
pub fn two_parts(
    alloc: Global,
    build: Making,
    first: Tree,
    second: Tree,
) -> Result<Parts, AllocError>
    ensures { IfOk result (λ p. (d e : Derivation) → IsMade build first d → IsMade build second e → IsParts build p (d ∷ e ∷ [])) }
{
    let parts = one_part(alloc, build, first)?;
    with_part(parts, second)
}

/// Three premises. Fails only for want of memory.
pub fn three_parts(
    alloc: Global,
    build: Making,
    first: Tree,
    second: Tree,
    third: Tree,
) -> Result<Parts, AllocError>
    ensures { IfOk result (λ p. (d e f : Derivation) → IsMade build first d → IsMade build second e → IsMade build third f → IsParts build p (d ∷ e ∷ f ∷ [])) }
{
    let parts = two_parts(alloc, build, first, second)?;
    with_part(parts, third)
}

// The list of the derivations.
fn listing(alloc: Global, ders: Vec<Rc<Der>>) -> Result<Premises, AllocError>
    ensures { IfOk result (λ p. premises_of p ≡ listed (map (λ d. der_of d.value) ders.items)) }
{
    let mut left = ders;
    let mut list = Premises::End;
    while let Some(der) = left.pop() {
        list = Premises::More(der, Rc::new(alloc, list)?);
    }
    Ok(list)
}

// A node over the derivations.
fn built(alloc: Global, rule: Rule, ders: Vec<Rc<Der>>, claim: Claim) -> Result<Rc<Der>, AllocError>
    ensures { IfOk result (λ d. der_of d.value ≡ Node (rule_of rule) (listed (map (λ d. der_of d.value) ders.items)) (claim_of claim)) }
{
    let premises = listing(alloc, ders)?;
    let der = Der {
        rule,
        claim,
        premises,
    };
    Ok(Rc::new(alloc, der)?)
}

/// A node which concludes that one shape is below the other. Fails only for want of memory.
pub fn shape_node(
    alloc: Global,
    rule: Rule,
    parts: Parts,
    left: &Rc<Shape>,
    right: &Rc<Shape>,
) -> Result<Tree, AllocError>
    ensures { IfOk result (λ t. (build : Making) (ds : List Derivation) → IsParts build parts ds
        → IsMade build t (Node (rule_of rule) (listed ds) (ShapeBelow (shape_of left.now.value) (shape_of right.now.value)))) }
{
    let Parts { nodes, ders } = parts;
    let nodes = nodes.saturating_add(1);
    match ders {
        Some(ders) => {
            let claim = Claim::ShapeBelow(left.clone()?, right.clone()?);
            let der = built(alloc, rule, ders, claim)?;
            Ok(Tree {
                nodes,
                der: Some(der),
            })
        }
        None => Ok(Tree { nodes, der: None }),
    }
}

/// A node which concludes that one type is below the other. Fails only for want of memory.
pub fn type_node(alloc: Global, parts: Parts, left: &Ty, right: &Ty) -> Result<Tree, AllocError>
    ensures { IfOk result (λ t. (build : Making) (ds : List Derivation) → IsParts build parts ds
        → IsMade build t (Node ByCapturing (listed ds) (TypeBelow (type_of left.now) (type_of right.now)))) }
{
    let Parts { nodes, ders } = parts;
    let nodes = nodes.saturating_add(1);
    match ders {
        Some(ders) => {
            let claim = Claim::TypeBelow(left.clone()?, right.clone()?);
            let der = built(alloc, Rule::ByCapturing, ders, claim)?;
            Ok(Tree {
                nodes,
                der: Some(der),
            })
        }
        None => Ok(Tree { nodes, der: None }),
    }
}

/// A node which concludes that a term has the type. Fails only for want of memory.
pub fn typing_node(alloc: Global, rule: Rule, parts: Parts, ty: &Ty) -> Result<Tree, AllocError>
    ensures { IfOk result (λ t. (build : Making) (ds : List Derivation) → IsParts build parts ds
        → IsMade build t (Node (rule_of rule) (listed ds) (OfType (type_of ty.now)))) }
{
    let Parts { nodes, ders } = parts;
    let nodes = nodes.saturating_add(1);
    match ders {
        Some(ders) => {
            let claim = Claim::Typed(ty.clone()?);
            let der = built(alloc, rule, ders, claim)?;
            Ok(Tree {
                nodes,
                der: Some(der),
            })
        }
        None => Ok(Tree { nodes, der: None }),
    }
}

/// A node which concludes that one set is below the other. Fails only for want of memory.
pub fn set_node(
    alloc: Global,
    parts: Parts,
    left: &CapSet,
    right: &CapSet,
) -> Result<Tree, AllocError>
    ensures { IfOk result (λ t. (build : Making) (ds : List Derivation) → IsParts build parts ds
        → IsMade build t (Node BySet (listed ds) (SetBelow left.now right.now))) }
{
    let Parts { nodes, ders } = parts;
    let nodes = nodes.saturating_add(1);
    match ders {
        Some(ders) => {
            let claim = Claim::SetBelow(left.clone()?, right.clone()?);
            let der = built(alloc, Rule::BySet, ders, claim)?;
            Ok(Tree {
                nodes,
                der: Some(der),
            })
        }
        None => Ok(Tree { nodes, der: None }),
    }
}

// That the set of the one element is below the set.
fn single_below(alloc: Global, elem: Elem, right: &CapSet) -> Result<Claim, AllocError>
    ensures { IfOk result (λ c. claim_of c ≡ SetBelow (single elem) right.now) }
{
    let mut single = CapSet::new(alloc);
    single.insert(elem)?;
    Ok(Claim::SetBelow(single, right.clone()?))
}

/// A node which concludes that the set of a variable is below the set, by its declared set. Fails only for want of
/// memory.
pub fn variable_node(
    alloc: Global,
    parts: Parts,
    variable: Var,
    right: &CapSet,
) -> Result<Tree, AllocError>
    ensures { IfOk result (λ t. (build : Making) (ds : List Derivation) → IsParts build parts ds
        → IsMade build t (Node ByVariable (listed ds) (SetBelow (variable_set variable) right.now))) }
{
    let Parts { nodes, ders } = parts;
    let nodes = nodes.saturating_add(1);
    match ders {
        Some(ders) => {
            let claim = single_below(alloc, Elem::Var(variable), right)?;
            let der = built(alloc, Rule::ByVariable, ders, claim)?;
            Ok(Tree {
                nodes,
                der: Some(der),
            })
        }
        None => Ok(Tree { nodes, der: None }),
    }
}

/// A node which concludes that the set of an element is below the set, as a member. Fails only for want of memory.
pub fn element_node(
    alloc: Global,
    build: Making,
    elem: Elem,
    right: &CapSet,
) -> Result<Tree, AllocError>
    ensures { IfOk result (λ t. IsMade build t (member_derived right.now elem)) }
{
    if build.whole {
        let claim = single_below(alloc, elem, right)?;
        let der = built(alloc, Rule::ByElement, Vec::new(alloc), claim)?;
        Ok(Tree {
            nodes: 1,
            der: Some(der),
        })
    } else {
        Ok(Tree {
            nodes: 1,
            der: None,
        })
    }
}
