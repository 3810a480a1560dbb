ghost use Rattle.std.specs.Prelude.{◌≡◌};

use crate::name::Name;
use std::alloc::Global;
use std::marker::Model;

/// The numbers that a file begins with, which contracts see as their list.
#[derive(Drop)]
pub struct Numbers {
    numbers: Vec<i64>,
}

impl Model for Numbers {
    ghost use Rattle.std.specs.Prelude.{List, ℤ};

    ghost Value = { List ℤ };

    ghost view = { λ n. n.numbers.items };
}

impl Numbers {
    /// The numbers of a list, in its order.
    pub fn new(numbers: Vec<i64>) -> Numbers
        ensures { result ≡ numbers.items }
    {
        Numbers { numbers }
    }

    /// The numbers, in order.
    pub fn as_slice(&self) -> &[i64]
        ensures { result.now ≡ self.now }
    {
        self.numbers.as_slice()
    }
}

/// What a device is.
#[derive(Drop)]
pub enum Kind {
    /// A console, which takes numbers and texts.
    Console,
    /// A file, which begins with these numbers.
    File(Numbers),
    /// A counter, which begins at 0.
    Counter,
}

/// A declared device.
#[derive(Drop)]
pub struct DeviceDecl {
    pub name: Name,
    pub kind: Kind,
}
