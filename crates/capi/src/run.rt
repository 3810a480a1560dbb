//! Conversing, where there is no word.
ghost use Rattle.std.specs.Prelude.{◌≡◌, ◌-◌, ◌^◌, ◌<◌};
ghost use Rattle.cc_conversation.specs.Conversed.{ends};
ghost use Rattle.capi.specs.Calls.{IsCall};

use crate::status::Status;
use cc_base::steps::Steps;
use cc_conversation::conversing::converse;
use cc_io::{Sink, Source};
use std::alloc::Global;
use std::sync::ledger::Ledger;

/// Answers what the source says, command by command, where there is no word after the program's name. Where there is one it
/// touches nothing.
pub fn capi<S: Source, K: Sink, L: Ledger>(
    alloc: Global,
    words: &[String],
    source: &mut S,
    sink: &mut K,
    steps: &mut Steps<L>,
) -> Status
    requires source { S.faults source.old < 2 ^ 64 - 1 }
    requires sink { K.faults sink.old < 2 ^ 64 - 1 }
    ensures { IsCall (source.new ≡ source.old) (sink.new ≡ sink.old)
        (ends (S.left source.old) (S.faults source.old) (K.written sink.old) (K.faults sink.old))
        (ends (S.left source.new) (S.faults source.new) (K.written sink.new) (K.faults sink.new))
        words.now result }
{
    match words {
        [] => Status::of(converse(alloc, source, sink, steps)),
        _ => Status::BadWords,
    }
}
