//! What holds of words of a command line, whatever they are, and worked words.

ghost use Rattle.cc_arguments.specs.Words.{WordsAskForOneThing, WordsInForms, WordsInNoForm};

/// Any words ask for one thing.
pub fn words_ask_for_one_thing()
    ensures { WordsAskForOneThing }
{}

/// Words in each form, and words in none.
pub fn worked_words()
    ensures forms { WordsInForms }
    ensures no_form { WordsInNoForm }
{}
