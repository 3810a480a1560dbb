//! The laws of conversations. The functions do nothing.
ghost use Rattle.cc_conversation.specs.ConversationExamples as example;
ghost use Rattle.cc_conversation.specs.ConversationLaws.{JobsAreSpoken, RestingLinesAreAJob, LinesHaveOneAnswer, BytesHaveOneAnswer, AnswersStay, HeardAnswersStay};

/// A host that sends a job line by line gets the replies that the job gets as a whole, each with an empty line behind it.
/// Where nothing is open behind the first line, what the host said is a job.
pub fn jobs_are_spoken()
    ensures jobs { JobsAreSpoken }
    ensures others { RestingLinesAreAJob }
{}

/// What a host is answered is determined by the lines that it sent, in whatever pieces they came.
pub fn lines_have_one_answer()
    ensures lines { LinesHaveOneAnswer }
    ensures bytes { BytesHaveOneAnswer }
{}

/// What a host was answered is taken back by nothing that it says behind it.
pub fn answers_stay()
    ensures lines { AnswersStay }
    ensures bytes { HeardAnswersStay }
{}

/// Small conversations: nothing is asked, strangers speak, replies have an empty line behind them, lines are
/// missing, and bad lines end it.
pub fn worked_conversations()
    ensures nothing { example.NothingIsAsked }
    ensures strangers { example.StrangersEndIt }
    ensures replies { example.RepliesEndWithAnEmptyLine }
    ensures missing { example.LinesAreMissing }
    ensures bad { example.BadLinesEndIt }
{}
