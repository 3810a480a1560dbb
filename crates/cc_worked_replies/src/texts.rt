//! How runs are written, each form once. The functions do nothing.
ghost use Rattle.cc_worked_replies.specs.ShownTexts as example;

/// What a run may operate.
pub fn authority_texts()
    ensures { example.AuthorityTexts }
{}

/// Events.
pub fn event_texts()
    ensures { example.EventTexts }
{}

/// What is shown of values.
pub fn value_texts()
    ensures { example.ValueTexts }
{}

/// The ends of runs, and which of them tell of a refusal.
pub fn end_texts()
    ensures { example.EndTexts }
{}

/// What is told of one task of several.
pub fn task_texts()
    ensures { example.TaskTexts }
{}
