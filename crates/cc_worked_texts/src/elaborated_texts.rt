//! What texts are elaborated to, whole, with all places. The functions do nothing.
ghost use Rattle.cc_worked_texts.specs.ElaboratedTexts as example;

/// What definitions become, with the places of all their parts.
pub fn elaborations()
    ensures argument_is_named { example.ArgumentIsNamed }
    ensures operands_in_operands { example.OperandsInOperands }
    ensures parentheses_start_expressions { example.ParenthesesStartExpressions }
    ensures sets_stand_under_lets { example.SetsStandUnderLets }
    ensures choices_stand_under_lets { example.ChoicesStandUnderLets }
    ensures exits_stand_under_lets { example.ExitsStandUnderLets }
    ensures repetitions_have_operands { example.RepetitionsHaveOperands }
    ensures boundaries_bind_their_exits { example.BoundariesBindTheirExits }
    ensures names_of_types_are_apart { example.NamesOfTypesAreApart }
    ensures local_names_hide { example.LocalNamesHide }
    ensures innermost_binder_counts { example.InnermostBinderCounts }
    ensures omitted_sets_are_their_own { example.OmittedSetsAreTheirOwn }
    ensures holes_are_counted { example.HolesAreCounted }
    ensures positions_are_in_order { example.PositionsAreInOrder }
    ensures own_name_is_visible { example.OwnNameIsVisible }
    ensures type_functions_may_be_recursive { example.TypeFunctionsMayBeRecursive }
    ensures box_of_a_name_is_a_value { example.BoxOfANameIsAValue }
    ensures choices_start_at_their_parentheses { example.ChoicesStartAtTheirParentheses }
    ensures operations_start_at_their_parentheses { example.OperationsStartAtTheirParentheses }
    ensures repetitions_start_at_their_parentheses { example.RepetitionsStartAtTheirParentheses }
    ensures short_right_sides { example.ShortRightSides }
{}
