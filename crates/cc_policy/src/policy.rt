//! Policies, and what they decide.

ghost use Rattle.std.specs.Prelude.{◌≡◌, ◌<◌, length};
ghost use Rattle.cc_policy.specs.Policies.{is_of, matches, decision_of};

use cc_base::name::Name;
use std::marker::Model;

/// A rule of a policy: whether it allows, and which modules and which devices it is about. `None` is any.
#[derive(Drop)]
pub struct Rule {
    pub allow: bool,
    pub module: Option<Name>,
    pub device: Option<Name>,
}

/// The rules of a policy, in order: fewer than 2^32. Contracts see their list.
#[derive(Drop)]
pub struct Policy {
    rules: Vec<Rule>,
}

impl Model for Policy {
    ghost use Rattle.std.specs.Prelude.{List, ◌<◌, length};
    ghost use Rattle.cc_policy.specs.declared.policy.Rule.{Rule};

    ghost Value = { List Rule };

    ghost view = { λ p. p.rules.items };

    ghost invariant = { λ p. length p.rules.items < 4294967296 };
}

impl Policy {
    /// The policy of a list of fewer than 2^32 rules, in its order.
    pub fn new(rules: Vec<Rule>) -> Policy
        requires { length rules.items < 4294967296 }
        ensures { result ≡ rules.items }
    {
        Policy { rules }
    }

    /// Its rules, in order.
    pub fn rules(&self) -> &[Rule]
        ensures { result.now ≡ self.now }
    {
        self.rules.as_slice()
    }

    /// How many rules it has.
    pub fn len(&self) -> u32
        ensures { result ≡ length self.now }
    {
        self.rules.len() as u32
    }
}

/// What a policy decides: whether it allows, and the number of the rule that decides, from 1, if there is one.
#[derive(Clone, Copy, PartialEq, Debug)]
pub struct Decision {
    pub allow: bool,
    pub rule: Option<u32>,
}

// Whether what a rule says of a module or of a device is true of the name.
fn is_of(one: &Option<Name>, name: &Name) -> bool
    ensures { result ≡ is_of one.now name.now }
{
    match one {
        Some(one) => one == name,
        None => true,
    }
}

// Whether the rule matches the module and the device.
fn matches(rule: &Rule, module: &Name, device: &Name) -> bool
    ensures { result ≡ matches rule.now «module».now device.now }
{
    is_of(&rule.module, module) && is_of(&rule.device, device)
}

/// Whether the policy allows the module the device. The first rule that matches decides, and where none does it is a
/// denial. It takes no memory.
pub fn decide(policy: &Policy, module: &Name, device: &Name) -> Decision
    ensures { result ≡ decision_of policy.now «module».now device.now }
{
    for (at, rule) in policy.rules.iter().enumerate() {
        if matches(rule, module, device) {
            return Decision {
                allow: rule.allow,
                rule: Some(at as u32 + 1),
            };
        }
    }
    Decision {
        allow: false,
        rule: None,
    }
}
