//! The usage text.

use clap::Command;
use std::alloc::{AllocError, Global};

/// The usage text: that there are no words. Fails only for want of memory.
pub fn usage_text(alloc: Global) -> Result<String, AllocError> {
    let mut command = Command::new(alloc, "certify")
        .about("Reads a certificate from standard input and says whether it is valid.")
        .disable_help_flag(true);
    command.render_help()
}
