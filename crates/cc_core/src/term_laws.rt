//! The laws of types, terms and contexts, which hold of the values that contracts see. The functions do nothing.
ghost use Rattle.cc_core.specs.TermLaws as law;
ghost use Rattle.cc_core.specs.ReadingLaws as reading;

/// How actions behave that are taken everywhere in a type or a term.
pub fn traversal()
    ensures agreeing_types { law.AgreeingActionsDoTheSameToTypes }
    ensures agreeing_terms { law.AgreeingActionsDoTheSameToTerms }
    ensures composed_types { law.ActionsComposeOnTypes }
    ensures composed_terms { law.ActionsComposeOnTerms }
    ensures kept_types { law.KeepingLeavesTypes }
    ensures kept_terms { law.KeepingLeavesTerms }
{}

/// How opening and closing undo each other.
pub fn opening_and_closing()
    ensures closed_types { law.ClosingUndoesOpeningOfTypes }
    ensures closed_terms { law.ClosingUndoesOpeningOfTerms }
    ensures opened_types { law.OpeningUndoesClosingOfTypes }
    ensures opened_terms { law.OpeningUndoesClosingOfTerms }
    ensures gone_types { law.ClosedPositionIsGoneFromTypes }
    ensures gone_terms { law.ClosedPositionIsGoneFromTerms }
    ensures no_index_types { law.OpeningFillsTheIndexOfTypes }
    ensures no_index_terms { law.OpeningFillsTheIndexOfTerms }
{}

/// How actions on free positions commute with opening and with putting a shape.
pub fn actions_on_free_positions()
    ensures opening_types { law.FreeActionsCommuteWithOpeningTypes }
    ensures opening_terms { law.FreeActionsCommuteWithOpeningTerms }
    ensures putting_shape_types { law.FreeActionsCommuteWithPuttingShapesInTypes }
    ensures putting_shape_terms { law.FreeActionsCommuteWithPuttingShapesInTerms }
    ensures opening_bodies_types { law.FreeActionsCommuteWithOpeningBodiesInTypes }
    ensures opening_bodies_terms { law.FreeActionsCommuteWithOpeningBodiesInTerms }
    ensures fresh_bodies_types { law.FreshPositionSentToAnotherOpensBodiesInTypes }
    ensures fresh_bodies_terms { law.FreshPositionSentToAnotherOpensBodiesInTerms }
    ensures fresh_types { law.FreshPositionSentToAnotherOpensTypes }
    ensures fresh_terms { law.FreshPositionSentToAnotherOpensTerms }
    ensures fresh_shape_types { law.FreshPositionSentToAShapePutsItInTypes }
    ensures fresh_shape_terms { law.FreshPositionSentToAShapePutsItInTerms }
    ensures levels_types { law.FreeActionsDoTheSameToTheTypesAtEachDepth }
    ensures levels_terms { law.FreeActionsDoTheSameToTheTermsAtEachDepth }
    ensures idle_types { law.LeavingEachPositionLeavesTypes }
    ensures idle_terms { law.LeavingEachPositionLeavesTerms }
{}

/// How renaming and filling behave.
pub fn renaming_and_filling()
    ensures filled_levels_types { law.FillingDoesTheSameToTheTypesAtEachDepth }
    ensures filled_levels_terms { law.FillingDoesTheSameToTheTermsAtEachDepth }
    ensures renamed_types { law.RenamingsComposeOnTypes }
    ensures renamed_terms { law.RenamingsComposeOnTerms }
    ensures renamed_openings_types { law.RenamingCommutesWithOpeningTypes }
    ensures renamed_openings_terms { law.RenamingCommutesWithOpeningTerms }
    ensures filled_openings_types { law.FillingCommutesWithOpeningTypes }
    ensures filled_openings_terms { law.FillingCommutesWithOpeningTerms }
    ensures filled_shapes_types { law.FillingCommutesWithPuttingShapesInTypes }
    ensures filled_shapes_terms { law.FillingCommutesWithPuttingShapesInTerms }
{}

/// How reading and writing behave.
pub fn reading_and_writing()
    ensures shifted_types { reading.ShiftedActionsActDeeperOnTypes }
    ensures shifted_terms { reading.ShiftedActionsActDeeperOnTerms }
    ensures opened_types { reading.OpeningAReadBodyReadsItsEntryInTypes }
    ensures opened_terms { reading.OpeningAReadBodyReadsItsEntryInTerms }
    ensures still_types { reading.ReadingLeavesTypesWithoutOpenIndex }
    ensures still_terms { reading.ReadingLeavesTermsWithoutOpenIndex }
    ensures written_types { reading.ReadingUndoesWritingOfTypes }
    ensures written_terms { reading.ReadingUndoesWritingOfTerms }
    ensures read_types { reading.WritingUndoesReadingOfTypes }
    ensures read_terms { reading.WritingUndoesReadingOfTerms }
{}

/// What keeps types and terms well formed, and what well-formedness gives.
pub fn well_formedness()
    ensures opened_types { law.OpenedTypesAreWellFormed }
    ensures opened_terms { law.OpenedTermsAreWellFormed }
    ensures closed_types { law.ClosedTypesAreWellFormed }
    ensures closed_terms { law.ClosedTermsAreWellFormed }
    ensures unopened_types { law.UnopenedTypesAreWellFormed }
    ensures unopened_terms { law.UnopenedTermsAreWellFormed }
    ensures put_types { law.PuttingAVariableKeepsTypesWellFormed }
    ensures put_terms { law.PuttingAVariableKeepsTermsWellFormed }
    ensures put_shape_types { law.PuttingAShapeKeepsTypesWellFormed }
    ensures put_shape_terms { law.PuttingAShapeKeepsTermsWellFormed }
    ensures renamed_types { law.RenamedTypesAreWellFormed }
    ensures renamed_terms { law.RenamedTermsAreWellFormed }
    ensures acted_types { law.ActedOnTypesAreWellFormed }
    ensures acted_terms { law.ActedOnTermsAreWellFormed }
    ensures filled_types { law.FilledTypesAreWellFormed }
    ensures filled_terms { law.FilledTermsAreWellFormed }
    ensures more_types { law.MoreEntriesKeepTypesWellFormed }
    ensures more_terms { law.MoreEntriesKeepTermsWellFormed }
    ensures positions_types { law.PositionsOfWellFormedTypesAreBelow }
    ensures positions_terms { law.PositionsOfWellFormedTermsAreBelow }
    ensures bodies_types { law.PositionsOfBodyTypesAreBelow }
    ensures bodies_terms { law.PositionsOfBodyTermsAreBelow }
    ensures term_bodies_types { law.BodyOfATermBinderKeepsKindsInTypes }
    ensures term_bodies_terms { law.BodyOfATermBinderKeepsKindsInTerms }
    ensures type_bodies_types { law.BodyOfATypeBinderKeepsKindsInTypes }
    ensures type_bodies_terms { law.BodyOfATypeBinderKeepsKindsInTerms }
{}

/// What holds of the entries of a context.
pub fn entries_of_contexts()
    ensures types { law.EntriesAreWellFormed }
    ensures bounds { law.BoundsAreWellFormed }
    ensures earlier_types { law.EntriesNameEarlierPositions }
    ensures earlier_bounds { law.BoundsNameEarlierPositions }
    ensures newest { law.NewestEntryIsFound }
    ensures older { law.OlderEntriesStay }
    ensures below { law.EntriesStandBelowTheLength }
{}

/// How captured variables behave.
pub fn captured_variables()
    ensures opened { law.CapturedVariablesOfOpenedTerms }
    ensures closed { law.CapturedVariablesOfClosedTerms }
    ensures renamed { law.CapturedVariablesOfRenamedTerms }
    ensures acted { law.CapturedVariablesOfActedOnTerms }
    ensures filled { law.CapturedVariablesOfFilledTerms }
    ensures put_shape { law.CapturedVariablesAfterPuttingAShape }
    ensures well_formed { law.CapturedVariablesAreWellFormed }
    ensures members { law.MembersOfOpenedSets }
{}

/// How sizes behave.
pub fn sizes()
    ensures with_shape { law.SizeWithAShapeIsCounted }
    ensures opened { law.OpeningKeepsSizes }
    ensures closed { law.ClosingKeepsSizes }
{}
