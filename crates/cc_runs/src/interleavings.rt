//! Tasks that run interleaved on the same devices. The functions do nothing.
ghost use Rattle.cc_runs.specs.InterleavingLaws as law;
ghost use Rattle.cc_runs.specs.TaskLaws as tasks;
ghost use Rattle.cc_runs.specs.ExampleTasks as example;
ghost use Rattle.cc_runs.specs.ExampleTurns as turns;

/// A step depends only on the devices that its configuration reaches, and changes no other.
pub fn steps_are_local()
    ensures depends { law.StepsDependOnWhatTheyReach }
    ensures changes { law.StepsChangeWhatTheyReach }
{}

/// An interleaved run is turns of its tasks, which come up as the schedule has them when it is repeated, and it goes on while it
/// has fuel and a task of the schedule is not final. Each task keeps what it keeps alone.
pub fn tasks_keep_their_promises()
    ensures turns { law.InterleavingsAreTurns }
    ensures repeated { law.SchedulesAreRepeated }
    ensures goes_on { law.SchedulesGoOn }
    ensures sound { law.TasksStaySound }
    ensures promises { law.TasksKeepTheirPromises }
{}

/// An interleaved run has at most as many turns as fuel, and its tasks take as many steps together as it has turns.
pub fn turns_are_within_fuel()
    ensures { law.TurnsAreWithinFuel }
{}

/// The events of each device are a history of that device alone, and a task whose devices no other reaches runs as it does
/// alone.
pub fn tasks_share_devices_alone()
    ensures histories { law.DevicesHaveHistories }
    ensures alone { law.TasksApartRunAsAlone }
{}

/// The programs of entries run interleaved as they should, on all devices of their shapes, by every schedule and with any
/// fuel: each task runs safely, each device has its history, and a task that has its devices alone runs as it does alone.
pub fn entries_run_interleaved()
    ensures ends { tasks.EndsAreOfTheirTasks }
    ensures interleaved { tasks.EntriesRunInterleaved }
{}

/// Whose turn it is, by computation.
pub fn worked_schedules()
    ensures { turns.SchedulesAreTurned }
{}

/// Interleaved runs, by computation: of tasks that share a device, of tasks that share none, with all their fuel and with less,
/// and with a boundary that each of two tasks leaves.
pub fn worked_interleavings()
    ensures shared { example.SharedCounterRuns }
    ensures apart { example.TasksApartRun }
    ensures fuel { example.FuelIsShared }
    ensures boundaries { example.BoundariesAreTheirOwn }
{}

/// Two entries whose authorities have no device in common, which so run as they do alone.
pub fn worked_entries_run_as_alone()
    ensures entries { example.OneAndNineAreEntries }
    ensures alone { example.OneAndNineRunAsAlone }
{}
