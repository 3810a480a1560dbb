//! Replies to tasks that run interleaved. The functions do nothing.
ghost use Rattle.cc_worked_replies.specs.TaskExamples as example;

/// Two tasks that share a device, with fuel for both, and with less.
pub fn tasks_run()
    ensures { example.TasksRun }
{}

/// The first task that is not run decides.
pub fn refused_tasks()
    ensures { example.RefusedTasks }
{}

/// Tasks of different modules on the same counter.
pub fn tasks_of_different_modules_run()
    ensures { example.TasksOfDifferentModulesRun }
{}
