//! Programs.
ghost use Rattle.std.specs.Prelude.{◌<◌, length};
ghost use Rattle.cc_machine.specs.Starts.{IsTyped, program_store};

use crate::values::TypedValue;
use cc_base::literal::Base;
use cc_core::Node;
use std::rc::Rc;

/// A program: the shapes of its devices, its values with their declared types, and the term that is run. In its store
/// the devices stand first, then the values, and then a cell with unit; free variables are positions of it. Each value
/// has its type in the context of the cells before it, a recursive one with its own position besides, and the term has
/// a type in the context of all cells. There are less than 2^32 cells.
#[derive(Drop)]
pub struct Program {
    devices: Vec<Base>,
    cells: Vec<TypedValue>,
    term: Rc<Node>,
    pub ghost typed: { ∥ IsTyped devices.items cells.items term.value ∥₁ },
    pub ghost positions: { length (program_store devices.items cells.items) < 4294967296 },
}

impl Program {
    ghost use Rattle.std.specs.Prelude.{◌≡◌, ◌+◌, ◌↔◌, IsTrue};
    ghost use Rattle.cc_device.specs.Devices.{Devices};
    ghost use Rattle.cc_runs.specs.SafeRuns.{HaveShapes};
    ghost use Rattle.cc_runs.specs.SoundRuns.{HasShapesOfCells};
    ghost use Rattle.cc_runs.specs.Soundness.{IsSound};
    ghost use Rattle.cc_machine.specs.Programs.{shapes_of, values_of, term_in, start_of};

    /// The program of these parts.
    pub fn new(devices: Vec<Base>, cells: Vec<TypedValue>, term: Rc<Node>) -> Program
        requires typed { ∥ IsTyped devices.items cells.items term.value ∥₁ }
        requires positions { length (program_store devices.items cells.items) < 4294967296 }
        ensures devices { shapes_of result ≡ devices.items }
        ensures cells { values_of result ≡ cells.items }
        ensures term { term_in result ≡ term.value }
    {
        Program {
            devices,
            cells,
            term,
        }
    }

    /// The shapes of the devices, by their numbers.
    pub fn devices(&self) -> &[Base]
        ensures { result.now ≡ shapes_of self.now }
    {
        self.devices.as_slice()
    }

    /// The values with their types, in the order of their positions.
    pub fn cells(&self) -> &[TypedValue]
        ensures { result.now ≡ values_of self.now }
    {
        self.cells.as_slice()
    }

    /// The term that is run.
    pub fn term(&self) -> &Node
        ensures { result.now ≡ term_in self.now }
    {
        &self.term
    }

    /// Whether the program has less than 2^32 cells when so many are added.
    pub fn has_positions(&self, steps: u32) -> bool
        ensures { IsTrue result ↔ (length (start_of self.now).store + steps < 4294967296) }
    {
        self.devices
            .len()
            .saturating_add(self.cells.len())
            .saturating_add(1)
            .saturating_add(steps as usize)
            < 4294967296
    }

    /// The program starts soundly, and devices of its shapes fit it. The function does nothing.
    pub fn starts_soundly(&self)
        ensures sound { ∥ IsSound (start_of self.now) ∥₁ }
        ensures fits { (devices : Devices) → HaveShapes devices (shapes_of self.now) → HasShapesOfCells (start_of self.now).store devices }
    {}
}
