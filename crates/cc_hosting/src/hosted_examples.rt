//! Worked runs on the devices of a host. The functions do nothing.
ghost use Rattle.cc_hosting.specs.HostedExamples as example;

/// Rules bind each linked module, and a run that they permit is told line by line.
pub fn worked_hosting()
    ensures rules { example.RulesBindEachModule }
    ensures told { example.PermittedRunsAreTold }
{}
