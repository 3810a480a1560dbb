//! Worked examples of steps, operators, types and authorities, by computation. The functions do nothing.
ghost use Rattle.cc_runs.specs.ExampleAuthorities as authorities;
ghost use Rattle.cc_runs.specs.ExampleOperators as operators;
ghost use Rattle.cc_runs.specs.ExampleStops as stops;
ghost use Rattle.cc_runs.specs.ExampleTypes as types;

/// What operators give, at the ends of the type of numbers too.
pub fn worked_operators()
    ensures sums { operators.SumsWrap }
    ensures differences { operators.DifferencesWrap }
    ensures products { operators.ProductsWrap }
    ensures comparisons { operators.ComparisonsTell }
    ensures equality { operators.EqualityTells }
{}

/// The type of a term with a boundary.
pub fn worked_types()
    ensures { types.LeavingAtOnceIsTyped }
{}

/// What is stuck where no text comes to it: variables without cells, operations without their arguments, exits without
/// their scopes, devices that do not answer, and an end with nothing to show.
pub fn worked_stops()
    ensures cells { stops.CellsAreNeeded }
    ensures arguments { stops.ArgumentsAreAsWanted }
    ensures scopes { stops.ScopesAreFound }
    ensures exits { stops.ExitsNeedTheirScopes }
    ensures answers { stops.AnswersAreNeeded }
    ensures shown { stops.ShownCellsAreNeeded }
{}

/// The authority of sets by example, and entries that start soundly: what they operate at any fuel.
pub fn worked_authorities()
    ensures sets { authorities.AuthoritiesOfSets }
    ensures sound { authorities.EntriesStartSoundly }
    ensures nothing { authorities.IdleOperatesNothing }
    ensures console { authorities.OthersOperateTheConsole }
{}
