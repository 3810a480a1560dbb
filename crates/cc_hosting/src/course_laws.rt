//! The laws of runs on the devices of a host. The functions do nothing.
ghost use Rattle.cc_hosting.specs.CourseLaws as law;
ghost use Rattle.cc_hosting.specs.HostedLaws as kept;

/// What is answered where a definition is to be run on the devices of a host exists, and is one: a host can foresee it.
pub fn hosted_runs_are_one()
    ensures exist { law.HostedRunsExist }
    ensures one { law.HostedRunsAreOne }
{}

/// What a host was told is not taken back when it says more, and a run that is over has taken no line too many.
pub fn hosted_runs_are_steady()
    ensures { law.HostedRunsAreSteady }
{}

/// Whatever a host says, a run that was not refused keeps to the rules: no device is asked that they do not allow to the
/// module of the definition and to each linked module that names it; and it is never stuck.
pub fn hosted_runs_keep_to_rules()
    ensures { kept.HostedRunsKeepToRules }
{}
