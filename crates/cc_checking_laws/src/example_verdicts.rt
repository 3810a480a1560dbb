//! Worked verdicts. The functions do nothing.
ghost use Rattle.cc_checking_laws.specs.ExampleVerdicts as example;

/// A set that is not below another, a box opened under the universal capability, and a recursive definition that prints.
pub fn refusals()
    ensures impure { example.ConsoleGivenIsRefused }
    ensures opened { example.BoxOfCapIsRefused }
    ensures recursive { example.PrintingAgainIsRefused }
    ensures pure { example.PurePrinterIsRefused }
    ensures content { example.ContentOfCapIsRefused }
    ensures exits { example.ExitMayNotLeave }
    ensures boxed_exits { example.BoxedExitMayNotLeave }
    ensures filled { example.OpenedForAParameterIsRefused }
{}

/// What is refused before anything is judged, and in which order.
pub fn refusals_of_inference()
    ensures heads { example.UnitAppliedIsRefused }
    ensures names { example.NameInBoundIsRefused }
    ensures sizes { example.TowerIsTooLarge }
    ensures sizes_of_parts { example.TowerInsideIsTooLarge }
    ensures written_first { example.WrittenTypesComeFirst }
    ensures judged_last { example.DemandsAreJudgedLast }
{}

/// Accepted definitions, and the types that others see.
pub fn accepted()
    ensures avoided { example.WidenedAndNarrowed }
    ensures filled { example.CalledTwiceFillsWithBoth }
    ensures filled_through { example.OneHoleFillsTheOther }
    ensures not_filled { example.NothingFillsTheHoles }
    ensures opened { example.OpenedForNothing }
    ensures type_functions { example.Identity }
    ensures applied { example.OpenedAfterIdentity }
    ensures boundaries { example.NestedBoundaries }
    ensures choices { example.ChosenHasBothSets }
    ensures sizes { example.LowerTower }
{}

/// Accepted recursive definitions, and one after such.
pub fn accepted_recursive()
    ensures pure { example.CountingDown }
    ensures after { example.CountingFromThree }
    ensures printing { example.PrintingForEver }
    ensures own { example.OwnNamesAreNoGlobals }
{}
