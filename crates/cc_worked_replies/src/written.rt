//! Each reply as it is written. The functions do nothing.
ghost use Rattle.cc_worked_replies.specs.WrittenReplies as example;

/// The text of each reply.
pub fn replies_are_written()
    ensures { example.RepliesAreWritten }
{}

/// Which replies tell of a refusal.
pub fn refusals_are_told()
    ensures { example.RefusalsAreTold }
{}
