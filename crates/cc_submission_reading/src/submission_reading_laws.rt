//! The laws of what is heard of a submission. The functions do nothing.
ghost use Rattle.cc_submission_reading.specs.SubmissionExamples as worked;
ghost use Rattle.cc_submission_reading.specs.SubmissionReadingLaws as law;

/// Items that may be said one behind the other are those of a submission, and those of a submission may be said so.
pub fn said_items_are_submitted()
    ensures items { law.SaidItemsAreSubmitted }
    ensures said { law.SubmittedItemsAreSaid }
{}

/// What was said so far is in order, from nothing on.
pub fn items_keep_the_order()
    ensures nothing { law.NothingIsInOrder }
    ensures more { law.ItemsKeepTheOrder }
{}

/// Bytes are a submission exactly where their lines are such items behind the first line, each with its line feed.
pub fn submissions_are_heard_whole()
    ensures whole { law.WholeSubmissionsAreHeard }
    ensures heard { law.SubmissionsAreHeardWhole }
{}

/// The bad line is the one that is told.
pub fn bad_lines_are_told()
    ensures bad { law.ABadLineIsTold }
    ensures cut { law.AnEndWithinAnItemIsTold }
    ensures feed { law.AMissingFeedIsTold }
    ensures first { law.AnotherFirstLineIsTold }
    ensures none { law.NoLineIsTold }
{}

/// Bytes are a submission or have a bad line, and one at most.
pub fn bytes_are_a_submission_or_bad()
    ensures found { law.BytesAreASubmissionOrBad }
    ensures one { law.BytesHaveOneBadLine }
{}

/// Texts of submissions, and texts that are none, each with its bad line.
pub fn worked_submissions()
    ensures such { worked.SubmissionsAreSuch }
    ensures first { worked.FirstLinesAreOne }
    ensures other { worked.OtherLinesAreBad }
    ensures claims { worked.ClaimsAreOfTheLastModule }
    ensures names { worked.NamesAreGivenOnce }
    ensures lines { worked.MissingLinesAreBad }
    ensures feeds { worked.MissingFeedsAreBad }
{}
