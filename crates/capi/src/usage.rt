//! The usage text.

use clap::Command;
use std::alloc::{AllocError, Global};

/// The usage text: that there are no words. Fails only for want of memory.
pub fn usage_text(alloc: Global) -> Result<String, AllocError> {
    let mut command = Command::new(alloc, "capi")
        .about("Answers what is said on standard input, command by command.")
        .disable_help_flag(true);
    command.render_help()
}
