//! How the program ends.
ghost use Rattle.std.specs.Prelude.{◌≡◌, ◌↔◌, IsTrue, IsSome};
ghost use Rattle.certify.specs.Status.{number_of, message_of};

use std::fmt;

/// How a call of the program ended.
#[derive(Clone, Copy, Debug, PartialEq, Eq)]
pub enum Status {
    /// The certificate is valid, and this was written.
    Valid,
    /// The bytes are no certificate or one that is not valid, and this was written.
    Invalid,
    /// A read failed.
    ReadFault,
    /// There are more bytes than the limit.
    TooLong,
    /// There is no memory.
    NoMemory,
    /// The answer could not be written.
    WriteFault,
    /// There are words, and the program has none.
    BadWords,
}

impl Status {
    /// The number with which the program ends.
    pub fn number(self) -> u8
        ensures { result ≡ number_of self }
    {
        match self {
            Status::Valid => 0,
            Status::Invalid => 1,
            Status::ReadFault | Status::TooLong | Status::NoMemory | Status::WriteFault => 2,
            Status::BadWords => 6,
        }
    }

    /// Whether the program says something on standard error: the text of `Display`.
    pub fn has_message(self) -> bool
        ensures { IsTrue result ↔ IsSome (message_of self) }
    {
        !matches!(self, Status::Valid | Status::Invalid)
    }
}

/// Why there is no answer.
impl fmt::Display for Status {
    ghost use Rattle.certify.specs.Status.{message_of};

    ghost output = { message_of };

    fn fmt<W: fmt::Write>(&self, f: &mut fmt::Formatter<W>) -> fmt::Result {
        match self {
            Status::Valid | Status::Invalid => Ok(()),
            Status::ReadFault => f.write_str("certify: read fault"),
            Status::TooLong => f.write_str("certify: certificate too long"),
            Status::NoMemory => f.write_str("certify: out of memory"),
            Status::WriteFault => f.write_str("certify: write fault"),
            Status::BadWords => f.write_str("certify: bad words"),
        }
    }
}
