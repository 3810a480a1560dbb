//! The laws of present files. The functions do nothing.
ghost use Rattle.cc_entry_laws.specs.PresentFiles as law;

/// Each definition of the present files that is judged is judged rightly, and the program of each entry of theirs runs
/// safely, alone and interleaved with others.
pub fn present_files_are_sound()
    ensures { law.PresentFilesAreSound }
{}

/// What a verdict of a module shows of definitions is a verdict of definitions that are judged.
pub fn shown_verdicts_are_judged()
    ensures refusals { law.ShownRefusalsAreJudged }
    ensures definitions { law.ShownDefinitionsAreJudged }
{}
