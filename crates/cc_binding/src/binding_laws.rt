//! The laws of rules that bind each linked module. The functions do nothing.

ghost use Rattle.cc_binding.specs.BindingLaws as law;

/// Nothing is found beyond the rules exactly where they bind all modules of an entry, and else what is found is the first.
pub fn first_beyond_is_first()
    ensures { law.FirstBeyondIsFirst }
{}

/// What a term captures it names.
pub fn captured_positions_are_named()
    ensures { law.CapturedPositionsAreNamed }
{}

/// Each device that is operated in a run of an entry's program is named by a linked module.
pub fn operated_devices_are_named()
    ensures { law.OperatedDevicesAreNamed }
{}

/// Where the rules bind all linked modules, each device that is operated is allowed to each module that names it.
pub fn bound_devices_are_allowed()
    ensures { law.BoundDevicesAreAllowed }
{}

/// The unused rules are those about what is not there, and their numbers rise.
pub fn unused_rules_are_unused()
    ensures unused { law.UnusedRulesAreUnused }
    ensures rise { law.UnusedRulesRise }
{}
