//! Checks and runs modules whose types tell which capabilities their values may hold.
//!
//! The program reads a job from standard input, carries it out, and writes one reply for each command. With the words of
//! a workload it carries that one's job out, and writes a summary of the replies.
#![tactic(auto)]

use cc_io::{StdSink, StdSource};
use cc_program::program::{Ending, program};
use std::marker::Brand;
use std::sync::ledger::Blank;
use std::{env, io};

/// Hands over the words and the streams of the system.
fn main(rt: HostRuntime) -> Ending {
    let mut source = StdSource::new(rt.reader());
    let mut sink = StdSink::new(io::writer(&rt));
    program::<_, _, _, Brand>(
        rt.alloc(),
        env::args(&rt),
        &mut source,
        &mut sink,
        &mut rt.stderr(),
        Blank::new(1),
    )
}
