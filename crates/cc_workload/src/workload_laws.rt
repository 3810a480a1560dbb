ghost use Rattle.cc_workload.specs.Workloads.{DevicesDiffer, WorkloadItems};
ghost use Rattle.cc_workload.specs.ExampleWorkloads.{WorkloadOfOne, CommandsOfThree, CommandsOfMost, FirstOfThree, LastOfThree, EntryOfThree, LastOfMost};

/// The devices and commands of a workload are those that a job may have.
pub fn workload_items()
    ensures names { DevicesDiffer }
    ensures items { WorkloadItems }
{}

/// Worked workloads.
pub fn worked_workloads()
    ensures one { WorkloadOfOne }
    ensures commands_of_three { CommandsOfThree }
    ensures commands_of_most { CommandsOfMost }
    ensures first_of_three { FirstOfThree }
    ensures last_of_three { LastOfThree }
    ensures entry_of_three { EntryOfThree }
    ensures last_of_most { LastOfMost }
{}
