//! The head lines of replies that are written in pieces, and the end of each of their lines.

ghost use Rattle.std.specs.Prelude.{◌≡◌, ◌-◌, ◌^◌, ◌<◌, [], ◌∷◌, IfOk};
ghost use Rattle.std.specs.String.{string_bytes};
ghost use Rattle.cc_io.specs.Pieces.{Streams};
ghost use Rattle.cc_io.specs.Wholes.{WriteAllCause};
ghost use Rattle.cc_replies.specs.ReplyTexts.{pair_head};

use cc_base::name::Name;
use cc_certificate_writing::writing::put;
use cc_io::{Sink, WriteAll, pass_on};
use std::alloc::{AllocError, Global};

/// The head line of the reply to a command of this word about the definition of the module. Fails only for want of
/// memory.
pub(crate) fn head_text(
    alloc: Global,
    word: &str,
    module: &Name,
    def: &Name,
) -> Result<String, AllocError>
    ensures { IfOk result (λ text. string_bytes text ≡ pair_head word.now «module».now def.now) }
{
    format!(in alloc; "{word} {module}.{def}\n")
}

/// Writes the end of a line.
pub(crate) fn write_line_feed<K: Sink>(sink: &mut K, waiting: &mut String) -> Result<(), WriteAll>
    requires { K.faults sink.old < 2 ^ 64 - 1 }
    ensures streams { Streams (K.written sink.old) (K.written sink.new) (string_bytes waiting.old) (string_bytes waiting.new) result
        (10 ∷ []) }
    ensures cause { WriteAllCause (K.faults sink.old) (K.faults sink.new) result }
{
    let put = put(waiting, "\n");
    pass_on(sink, waiting, put)
}
