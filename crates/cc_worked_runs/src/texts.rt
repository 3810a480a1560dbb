//! Runs of one text. The functions do nothing.
ghost use Rattle.cc_worked_runs.specs.RunningTexts as runs;
ghost use Rattle.cc_worked_runs.specs.StuckTexts as stuck;

/// What a text does that no check accepts: at which step its run is stuck, and what it did before.
pub fn stuck_texts()
    ensures applied { stuck.OnlyFunctionsAreApplied }
    ensures instantiated { stuck.OnlyTypeFunctionsAreInstantiated }
    ensures opened { stuck.OnlyBoxesAreOpened }
    ensures operators { stuck.OperatorsTakeNumbers }
    ensures choices { stuck.ChoicesTakeTruths }
    ensures repetitions { stuck.RepetitionsTakeNumbers }
    ensures exits { stuck.ExitsAreOfBoundaries }
    ensures scopes { stuck.ExitsNeedTheirScopes }
    ensures devices { stuck.OperationsAreOfTheirDevices }
    ensures arguments { stuck.OperationsTakeTheirArguments }
    ensures whole { stuck.StopsOnItsWay }
{}

/// Whole runs of texts, with their events, their end and what it shows, and the number of their steps.
pub fn running_texts()
    ensures fuel { runs.FuelIsExact }
    ensures names { runs.NamesNeedNoCell }
    ensures boxes { runs.BoxesRun }
    ensures choices { runs.ChoicesRun }
    ensures boundaries { runs.BoundariesRun }
    ensures boxes_pass { runs.BoxesPass }
    ensures repetitions { runs.RepetitionsRun }
    ensures repetition_left { runs.RepetitionsAreLeft }
    ensures calls { runs.CallsRun }
    ensures devices { runs.DevicesKeepWhatWasDone }
    ensures wrapping { runs.NumbersWrapInRuns }
    ensures file { runs.FilesAreRead }
    ensures recursion { runs.RecursionRuns }
    ensures shown { runs.AnswersAreShown }
{}
