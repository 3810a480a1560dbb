//! Why a session refuses a call.

use cc_base::code::Code;

/// Why a module is not put.
#[derive(Clone, Copy, Debug, PartialEq, Eq)]
pub enum PutRefused {
    /// Its text has more than 65,536 bytes: `E30`.
    TooLong,
    /// 256 modules of other names are present: `E31`.
    TooMany,
    /// There is no memory for it.
    NoMemory,
}

/// The module is not present: `E32`.
#[derive(Clone, Copy, Debug, PartialEq, Eq)]
pub struct NoSuchModule;

/// Why there is no signature, definition or entry.
#[derive(Clone, Copy, Debug, PartialEq, Eq)]
pub struct Refused {
    /// `E32` where the module is not present; else `E34` where it is not accepted; else `E33` where it has no such
    /// definition; else `E35` where the definition is no function of a unit.
    pub code: Code,
}
