use cc_base::code::Diag;

/// Why tokens have no tree.
#[derive(Clone, Copy, Debug, PartialEq, Eq)]
pub enum ParseError {
    /// The tokens are refused: as `E03` no module begins with the tokens up to and including the one at the place, or the
    /// text ends there and is none; as `E04` modules do, but each has a tree that is too high.
    Refused(Diag),
    /// There is no memory for the tree.
    NoMemory,
}
