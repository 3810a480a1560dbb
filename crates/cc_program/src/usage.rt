//! The usage text.

use clap::{Arg, ArgAction, Command};
use std::alloc::{AllocError, Global};

/// The usage text: the form of the words, and the one option. Fails only for want of memory.
pub fn usage_text(alloc: Global) -> Result<String, AllocError> {
    let workload = Arg::new(alloc, "workload")
        .long("workload")
        .value_name("N")
        .help("Carry out the job of a workload of N modules, 1 to 200, and write its summary")
        .action(ArgAction::Set);
    let mut command = Command::new(alloc, "capc")
        .about("Reads a job from standard input, carries it out, and writes the replies.")
        .disable_help_flag(true)
        .arg(workload)?;
    command.render_help()
}
