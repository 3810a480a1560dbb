//! Replies to audits and guards. The functions do nothing.
ghost use Rattle.cc_worked_replies.specs.PolicyExamples as example;

/// What rules decide for a module that imports from two others.
pub fn policies_decide()
    ensures { example.PoliciesDecide }
{}

/// A guarded run, with as much fuel as it takes, and with less.
pub fn guards_run_out_of_fuel()
    ensures { example.GuardsRunOutOfFuel }
{}

/// A definition that operates no device is permitted by any rules.
pub fn no_devices_are_needed()
    ensures { example.NoDevicesAreNeeded }
{}

/// Why a definition is not audited.
pub fn refused_audits()
    ensures { example.RefusedAudits }
{}

/// Why a definition is not guarded.
pub fn refused_guards()
    ensures { example.RefusedGuards }
{}
