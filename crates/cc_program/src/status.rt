ghost use Rattle.std.specs.Prelude.{◌≡◌, ◌↔◌, IsTrue, IsSome};
ghost use Rattle.cc_program.specs.Status.{number_of, message_of};

use std::fmt;

/// How a call of the program ended.
#[derive(Clone, Copy, Debug, PartialEq, Eq)]
pub enum Status {
    /// The job was carried out, and no reply is a refusal.
    Clean,
    /// The job was carried out, and a reply is a refusal.
    Refusals,
    /// The bytes are no job, by the line of this number.
    BadJob(u32),
    /// A read failed.
    ReadFault,
    /// A write failed.
    WriteFault,
    /// There is no memory.
    NoMemory,
    /// The words are in no form that the program has.
    BadWords,
    /// The job is longer than the limit.
    TooLong,
}

impl Status {
    /// The number with which the program ends.
    pub fn number(self) -> u8
        ensures { result ≡ number_of self }
    {
        match self {
            Status::Clean => 0,
            Status::Refusals => 1,
            Status::BadJob(_) => 2,
            Status::ReadFault => 3,
            Status::WriteFault => 4,
            Status::NoMemory => 5,
            Status::BadWords => 6,
            Status::TooLong => 7,
        }
    }

    /// Whether the program says something on standard error: the text of `Display`.
    pub fn has_message(self) -> bool
        ensures { IsTrue result ↔ IsSome (message_of self) }
    {
        !matches!(self, Status::Clean | Status::Refusals)
    }
}

/// Why nothing more came, where the job was not carried out.
impl fmt::Display for Status {
    ghost use Rattle.cc_program.specs.Status.{message_of};

    ghost output = { message_of };

    fn fmt<W: fmt::Write>(&self, f: &mut fmt::Formatter<W>) -> fmt::Result {
        match self {
            Status::Clean | Status::Refusals => Ok(()),
            Status::BadJob(line) => write!(f, "capc: bad job at line {line}"),
            Status::ReadFault => f.write_str("capc: read fault"),
            Status::WriteFault => f.write_str("capc: write fault"),
            Status::NoMemory => f.write_str("capc: out of memory"),
            Status::BadWords => f.write_str("capc: bad words"),
            Status::TooLong => f.write_str("capc: job too long"),
        }
    }
}
