//! Modules with their claims, and the claims found by the names of definitions.

ghost use Rattle.std.specs.Prelude.{◌≡◌, ℕ, List, Some, None, map, OnOk, IfOk, if◌then◌else◌};
ghost use Rattle.std.specs.Option.{option_map};
ghost use Rattle.std.specs.Str.{bytes_eq};
ghost use Rattle.cc_vouching.specs.VouchedDefinitions.{claim_named};
ghost use Rattle.cc_module_vouching.specs.ClaimViews.{claim_of, claim_at, place_in, FindsClaims};

use cc_base::name::Name;
use std::alloc::{AllocError, Global};
use std::collections::BTreeMap;

/// A claim: that a definition of this name has a certificate, and the bytes of that.
#[derive(Drop)]
pub struct Claim {
    pub definition: Name,
    pub certificate: Vec<u8>,
}

/// A module with its claims: its name, its text, and the claims, in order.
#[derive(Drop)]
pub struct ClaimedModule {
    pub name: Name,
    pub source: Vec<u8>,
    pub claims: Vec<Claim>,
}

/// The places of claims, by the names of their definitions.
#[derive(Drop)]
pub(crate) struct ClaimPlaces {
    places: BTreeMap<Name, usize>,
}

impl ClaimPlaces {
    // No places.
    fn new(alloc: Global) -> ClaimPlaces
        ensures { (name : List ℕ) → place_in result name ≡ None }
    {
        ClaimPlaces {
            places: BTreeMap::new(alloc),
        }
    }

    // Gives the name the place, instead of the one that it had.
    fn put(&mut self, name: &Name, place: usize) -> Result<(), AllocError>
        ensures { OnOk result ((other : List ℕ) → place_in self.new other ≡ (if bytes_eq name.now other then Some place else place_in self.old other)) }
    {
        let copy = name.clone()?;
        self.places.insert(copy, place)?;
        Ok(())
    }

    // The place of the name, if it has one.
    fn place(&self, name: &Name) -> Option<usize>
        ensures { result ≡ place_in self.now name.now }
    {
        self.places.get(name).copied()
    }
}

/// The places of the claims. A name leads to the first claim of its own. Fails only for want of memory.
pub(crate) fn places_of(alloc: Global, claims: &[Claim]) -> Result<ClaimPlaces, AllocError>
    ensures { IfOk result (λ places. FindsClaims places claims.now) }
{
    let mut places = ClaimPlaces::new(alloc);
    let mut left = claims.len();
    while left > 0 {
        left -= 1;
        places.put(&claims[left].definition, left)?;
    }
    Ok(places)
}

// The claim at the place, if there is one.
fn claim_at(claims: &[Claim], place: Option<usize>) -> Option<&Claim>
    ensures { option_map (λ claim. claim.now) result ≡ claim_at claims.now place }
{
    match place {
        Some(at) => claims.get(at),
        None => None,
    }
}

/// The first claim of the name, if there is one. It takes no memory.
pub(crate) fn claim_named<'a>(
    claims: &'a [Claim],
    places: &ClaimPlaces,
    name: &Name,
) -> Option<&'a Claim>
    requires { FindsClaims places.now claims.now }
    ensures { option_map (λ claim. claim.now.certificate.items) result ≡ claim_named name.now (map claim_of claims.now) }
{
    claim_at(claims, places.place(name))
}
