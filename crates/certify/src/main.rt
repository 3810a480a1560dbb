//! Reads a certificate from standard input and says whether it is valid: a line `valid TYPE` with the type of its last
//! node, `bad line NUMBER`, or `bad node NUMBER`. It ends with 0 where it is valid, with 1 where it is not, and with 2 and
//! a word on standard error where the certificate could not be read or the answer not written. It takes no words: at any
//! it ends with 6 and the usage text on standard error, and reads and writes nothing.
//!
//! A job's `verify` answers the same. This program has nothing beside the judge: no modules, checker or machine.
#![tactic(auto)]

pub mod certificate_laws;
mod program;
mod run;
mod status;
pub mod status_table;
mod usage;
mod words;

use crate::program::{Ending, program};
use cc_io::{StdSink, StdSource};
use std::{env, io};

/// Hands over the words and the streams of the system.
fn main(rt: HostRuntime) -> Ending {
    let mut source = StdSource::new(rt.reader());
    let mut sink = StdSink::new(io::writer(&rt));
    program(
        rt.alloc(),
        env::args(&rt),
        &mut source,
        &mut sink,
        &mut rt.stderr(),
    )
}
