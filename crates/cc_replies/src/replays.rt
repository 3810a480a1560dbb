//! The reply to a command that replays the lines of a trace.

ghost use Rattle.std.specs.Prelude.{◌≡◌, ◌++◌, [], IfOk, OnOk};
ghost use Rattle.std.specs.String.{string_bytes};
ghost use Rattle.cc_replies.specs.ReplyTexts as plain;
ghost use Rattle.cc_replies.specs.ReplyTexts.{Replayed as TellsOutcome, ReplayRefused, reply_text};

use cc_base::code::Code;
use cc_base::name::Name;
use cc_certificate_writing::writing::put;
use cc_replay::Replayed;
use std::alloc::{AllocError, Global};

// Adds what comes of a replay.
fn put_outcome(alloc: Global, out: &mut String, outcome: Replayed) -> Result<(), AllocError>
    ensures { OnOk result (string_bytes out.new ≡ string_bytes out.old ++ plain.outcome_text outcome) }
{
    match outcome {
        Replayed::Agrees => put(out, "agrees"),
        Replayed::Differs { line } => {
            let text = format!(in alloc; "{line}")?;
            put(out, "differs at line ")?;
            put(out, text.as_str())
        }
    }
}

/// The reply to a command that replays lines with the definition of a module, where this came of it. Fails only for want of
/// memory.
pub fn replay_reply(
    alloc: Global,
    module: &Name,
    def: &Name,
    outcome: Replayed,
) -> Result<String, AllocError>
    ensures { IfOk result (λ text. string_bytes text ≡ reply_text [] (TellsOutcome «module».now def.now outcome)) }
{
    let mut out = format!(in alloc; "replay {module}.{def}\n  ")?;
    put_outcome(alloc, &mut out, outcome)?;
    put(&mut out, "\n")?;
    Ok(out)
}

/// The reply to such a command that is refused with the code. Fails only for want of memory.
pub fn replay_refusal(
    alloc: Global,
    module: &Name,
    def: &Name,
    code: Code,
) -> Result<String, AllocError>
    ensures { IfOk result (λ text. string_bytes text ≡ reply_text [] (ReplayRefused «module».now def.now code)) }
{
    format!(in alloc; "replay {module}.{def} refused {code}\n")
}

/// Whether the lines are not the trace, where this came of a replay.
pub fn is_different(outcome: Replayed) -> bool
    ensures { result ≡ plain.is_different outcome }
{
    match outcome {
        Replayed::Agrees => false,
        Replayed::Differs { line: _ } => true,
    }
}
