//! Worked links. The functions do nothing.
ghost use Rattle.cc_entry_laws.specs.PresentLinkExamples as example;

/// What each position of a right side stands for, and a chain from a definition of one module through that of another.
pub fn links()
    ensures positions { example.PositionsInOrder }
    ensures own { example.OwnPositionIsLast }
    ensures entries { example.EntriesOfTwoModules }
    ensures chain { example.ChainThroughTheLibrary }
{}
