//! What is asked of sets, to be judged later.

ghost use Rattle.std.specs.Prelude.{◌≡◌, [], ◌∷◌, ◌++◌, length, take, OnOk, OnErr};

use cc_base::place::Place;
use cc_capture::CapSet;
use cc_core::Ctx;
use std::alloc::{AllocError, Global};
use std::marker::Model;

/// What is asked, with the place to be named where it does not hold.
#[derive(Drop)]
pub enum Demand {
    /// In the context, the left set is to be below the right one.
    Sub {
        ctx: Ctx,
        left: CapSet,
        right: CapSet,
        at: Place,
    },
    /// The set is to have no universal capability.
    NoCap {
        set: CapSet,
        at: Place,
    },
}

/// What is asked, in the order in which it was asked. Contracts see the list.
#[derive(Drop)]
pub struct Demands {
    items: Vec<Demand>,
}

impl Model for Demands {
    ghost use Rattle.std.specs.Prelude.{List};
    ghost use Rattle.std.specs.Coded.{codes};
    ghost use Rattle.cc_subty.specs.declared.demands.Demand.{Demand};
    ghost use Rattle.cc_subty.specs.contracts.demands.Demand as demand;

    ghost Value = { List Demand };

    ghost coded = { Prim.hlevel (codes, demand.the_row.coded) };

    ghost view = { λ d. d.items.items };
}

impl Demands {
    /// Nothing is asked. It takes no memory.
    pub fn new(alloc: Global) -> Demands
        ensures { result ≡ [] }
    {
        Demands {
            items: Vec::new(alloc),
        }
    }

    /// Asks one thing more, behind the others.
    ///
    /// Fails only for want of memory, and leaves what was asked as it was then.
    pub fn push(&mut self, demand: Demand) -> Result<(), AllocError>
        ensures ok { OnOk result (self.new ≡ self.old ++ (demand ∷ [])) }
        ensures err { OnErr result (self.new ≡ self.old) }
    {
        Ok(self.items.push(demand)?)
    }

    /// Asks all of another list more, behind the others.
    ///
    /// Fails only for want of memory, and leaves what was asked as it was then.
    pub fn append(&mut self, mut more: Demands) -> Result<(), AllocError>
        ensures ok { OnOk result (self.new ≡ self.old ++ more) }
        ensures err { OnErr result (self.new ≡ self.old) }
    {
        self.items.append(&mut more.items)
    }

    /// How much is asked.
    pub fn len(&self) -> usize
        ensures { result ≡ length self.now }
    {
        self.items.len()
    }

    /// What is asked, in order.
    pub fn as_slice(&self) -> &[Demand]
        ensures { result.now ≡ self.now }
    {
        self.items.as_slice()
    }

    /// Keeps what was asked first, so many, and drops the others.
    pub fn truncate(&mut self, count: usize)
        ensures { self.new ≡ take count self.old }
    {
        self.items.truncate(count);
    }
}
