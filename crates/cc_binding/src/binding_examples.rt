//! Worked devices that texts name, modules beyond rules, and unused rules. The functions do nothing.

ghost use Rattle.cc_binding.specs.BindingExamples as example;

/// Which devices texts name, and where terms name them.
pub fn named_devices()
    ensures texts { example.NamedInTexts }
    ensures imports { example.NamedByTheImportedModule }
    ensures parts { example.NamedInEachPart }
    ensures others { example.NotNamed }
{}

/// Which modules are beyond rules, and with which device.
pub fn modules_beyond_rules()
    ensures rules { example.RulesBind }
    ensures first { example.TheFirstIsFound }
{}

/// Which rules are unused.
pub fn unused_rules()
    ensures { example.UnusedRulesAreNumbered }
{}
