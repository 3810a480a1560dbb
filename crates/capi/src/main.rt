//! Answers a conversation on standard input and output: lines in the form of those of a job, of which each command is answered
//! before more is read, with an empty line behind each reply. It takes no words.
//!
//! It ends with 0 where nothing is left and no reply was a refusal, with 1 where one was, with 2 at a line with which no
//! conversation goes on, and with 3 to 7 and a message on standard error as `capc` does.
#![tactic(auto)]

mod program;
mod run;
pub mod status;
mod usage;
mod words;

use crate::program::{Ending, program};
use cc_io::{StdSink, StdSource};
use std::marker::Brand;
use std::sync::ledger::Blank;
use std::{env, io};

/// Hands over the words and the streams of the system.
fn main(rt: HostRuntime) -> Ending {
    let mut source = StdSource::new(rt.reader());
    let mut sink = StdSink::new(io::writer(&rt));
    program::<_, _, _, Brand>(
        rt.alloc(),
        env::args(&rt),
        &mut source,
        &mut sink,
        &mut rt.stderr(),
        Blank::new(1),
    )
}
