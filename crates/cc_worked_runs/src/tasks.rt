//! Texts that run interleaved on the same devices. The functions do nothing.
ghost use Rattle.cc_worked_runs.specs.InterleavedTexts as tasks;

/// In which order tasks have their turns, and what becomes of the others where one is stuck.
pub fn interleaved_texts()
    ensures turned { tasks.SchedulesAreTurned }
    ensures passed { tasks.EndedTasksArePassedOver }
    ensures stuck { tasks.AStuckTaskStopsAll }
{}
