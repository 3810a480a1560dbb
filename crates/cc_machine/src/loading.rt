//! The cells of a program, which its machines share.
ghost use Rattle.std.specs.Prelude.{◌≡◌, ◌<◌, ◌≤◌, ◌++◌, List, Some, length, slice_get};
ghost use Rattle.cc_core.specs.Contexts.{lookup};
ghost use Rattle.cc_core.specs.Stores as stores;
ghost use Rattle.cc_machine.specs.declared.links.Link.{Link};
ghost use Rattle.cc_machine.specs.Loading.{numbered_from, values_and_unit};
ghost use Rattle.cc_machine.specs.Parts.{cell_in, cell_environment};
ghost use Rattle.cc_machine.specs.Programs.{program_cells};

use crate::{Cell, Program, Small, TypedValue};
use cc_base::literal::Base;

// The cell of the device of the number.
fn device_cell<'a>(devices: &[Base], number: u32) -> Cell<'a>
    requires { number < length devices.now }
    ensures cell { (links : List Link) (others : List stores.Cell) → Some (cell_in links result) ≡ slice_get (numbered_from 0 devices.now ++ others) number }
    ensures outermost { cell_environment (Some result) ≡ 0 }
{
    Cell::Device(number, devices[number as usize])
}

// The cell of the value of the index, or that of unit behind them all.
fn value_cell(values: &[TypedValue], index: usize) -> Cell<'_>
    requires { index ≤ length values.now }
    ensures cell { (links : List Link) → Some (cell_in links result) ≡ slice_get (values_and_unit values.now) index }
    ensures outermost { cell_environment (Some result) ≡ 0 }
{
    match values.get(index) {
        Some(typed) => Cell::Code(&typed.value, 0),
        None => Cell::Small(Small::Unit),
    }
}

impl Program {
    /// How many cells it has.
    pub fn count(&self) -> u32
        ensures { result ≡ length (program_cells self.now) }
    {
        (self.devices().len() + self.cells().len() + 1) as u32
    }

    /// Its cell at the position. No environment is around it.
    pub fn cell(&self, position: u32) -> Cell<'_>
        requires { position < length (program_cells self.now) }
        ensures cell { (links : List Link) → Some (cell_in links result) ≡ lookup (program_cells self.now) position }
        ensures outermost { cell_environment (Some result) ≡ 0 }
    {
        let devices = self.devices();
        let at = position as usize;
        if at < devices.len() {
            device_cell(devices, position)
        } else {
            value_cell(self.cells(), at - devices.len())
        }
    }
}
