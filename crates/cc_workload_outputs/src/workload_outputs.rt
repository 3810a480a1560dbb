//! What workloads write, for each number of modules.
ghost use Rattle.cc_workload_outputs.specs.WorkedOutputs.{OutputsOfOneAndTwo, NamesOfTen, RunOfMost};
ghost use Rattle.cc_workload_outputs.specs.WorkloadOutputs.{WorkloadsEndClean};

/// A workload of 1 to 200 modules writes its lines, and none of its replies tells of a refusal. The function does nothing.
pub fn workloads_end_clean()
    ensures clean { WorkloadsEndClean }
{}

/// Worked outputs. The function does nothing.
pub fn worked_outputs()
    ensures one_and_two { OutputsOfOneAndTwo }
    ensures names_of_ten { NamesOfTen }
    ensures run_of_most { RunOfMost }
{}
