//! The summary of a text by what is kept of it.
ghost use Rattle.std.specs.Prelude.{◌≡◌, ℕ, List, IfOk};
ghost use Rattle.cc_summary.specs.Summaries.{IsTally, summary_text, without_indent};

use crate::tally::Tally;
use std::alloc::{AllocError, Global};

// The line without its two leading spaces.
fn without_indent(line: &[u8]) -> &[u8]
    ensures { result.now ≡ without_indent line.now }
{
    if line.len() >= 2 && line[0] == b' ' && line[1] == b' ' {
        &line[2..]
    } else {
        line
    }
}

/// The summary of a text, of the workload with this number, by what is kept of the text. Fails only for want of memory.
pub fn summary(alloc: Global, workload: u32, tally: &Tally) -> Result<Vec<u8>, AllocError>
    ensures { (text : List ℕ) → IsTally text tally.now.lines tally.now.bytes tally.now.last.items tally.now.ended
        → IfOk result (λ told. told.items ≡ summary_text workload text) }
{
    let lines = tally.lines;
    let bytes = tally.bytes;
    let head = format!(in alloc; "workload {workload}\nlines {lines}\nbytes {bytes}\nlast ")?;
    let mut told = head.into_bytes();
    told.extend_from_slice(without_indent(&tally.last))?;
    told.push(b'\n')?;
    Ok(told)
}
