//! Worked canonical derivations. The functions do nothing.
ghost use Rattle.cc_checking_laws.specs.ExampleDerivations as example;

/// Where the type of a term is widened, and where it is not.
pub fn widened()
    ensures written { example.WrittenNamesAreWidened }
    ensures others { example.OtherNamesAreNot }
    ensures opened { example.OpenedBoxesAreWidened }
    ensures opened_with { example.OpenedBoxesHaveTheSet }
    ensures exposed { example.ExposedHeadsAreWidened }
    ensures wholes { example.WholesAreWidened }
    ensures branches { example.BranchesAreWidened }
    ensures boundaries { example.BodiesOfBoundariesAreWidened }
{}
