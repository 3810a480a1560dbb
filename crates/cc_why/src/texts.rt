//! Why a text is no module.

ghost use Rattle.std.specs.Prelude.{IfOk};
ghost use Rattle.cc_why.specs.ToldReasons.{TellsText};

use crate::why::ReasonLines;
use cc_text_reasoning::explain::text_reason;
use cc_text_reasoning::lines::reason_lines;
use std::alloc::{AllocError, Global};

/// The lines of the reason for which the text is no module, if it is none. Fails only for want of memory.
pub(crate) fn text_lines(alloc: Global, text: &[u8]) -> Result<Option<ReasonLines>, AllocError>
    ensures { IfOk result (TellsText text.now) }
{
    match text_reason(alloc, text)? {
        Some((reason, _)) => {
            let lines = reason_lines(alloc, &reason)?;
            Ok(Some(ReasonLines::Words(lines)))
        }
        None => Ok(None),
    }
}
