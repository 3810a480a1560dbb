use cc_base::code::Diag;

/// Why a module has no elaboration.
#[derive(Clone, Copy, Debug, PartialEq, Eq)]
pub enum ElaborateError {
    /// The module is refused: as `E09` a name is declared twice, as `E10` a name is unknown, as `E11` a type name is
    /// unknown, as `E12` a right side is no value, or no function where the definition is recursive, and as `E19` a set
    /// is omitted where it has to be written. The place is that of the name, of the right side, or of the `?`.
    Refused(Diag),
    /// There is no memory for the elaborated module, or a number would be beyond 2^32 - 1.
    NoMemory,
}
