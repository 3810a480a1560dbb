//! Worked conversations with questions. The function does nothing.
ghost use Rattle.cc_worked_conversations.specs.QuestionConversations as example;

/// Questions about modules that are not present, accepted, no module, and refused for a name; lines that are none; and a
/// device that is declared behind one.
pub fn questions_are_answered()
    ensures answers { example.QuestionsAreAnswered }
    ensures bad { example.BadQuestionsEndIt }
    ensures declarations { example.QuestionsEndDeclarations }
{}
