//! Worked conversations with live runs. The function does nothing.
ghost use Rattle.cc_worked_conversations.specs.LiveConversations as example;

/// A live run that is answered, that waits, that is stopped, that ends by a line that is no answer, and that is denied.
pub fn live_runs_are_spoken()
    ensures runs { example.RunsAreSpoken }
    ensures denied { example.DeniedRunsAreSpoken }
{}
