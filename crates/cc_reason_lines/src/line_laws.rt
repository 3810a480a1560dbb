//! The reasons for which definitions are refused can be told. The functions do nothing.
ghost use Rattle.cc_reason_lines.specs.ReasonLines.{ReasonsCanBeTold, FirstReasonsCanBeTold};

/// Whoever is answered why a definition is refused can be told it.
pub fn reasons_can_be_told()
    ensures { ReasonsCanBeTold }
{}

/// And so for the first definition of a module that is refused.
pub fn first_reasons_can_be_told()
    ensures { FirstReasonsCanBeTold }
{}
