//! The laws of policies, and worked ones.

ghost use Rattle.cc_policy.specs.PolicyLaws.{RulesDecide, RulesDecideOnce};
ghost use Rattle.cc_policy.specs.PolicyExamples as example;

/// Rules decide as their function says.
pub fn rules_decide()
    ensures { RulesDecide }
{}

/// Rules decide in one way.
pub fn rules_decide_once()
    ensures { RulesDecideOnce }
{}

/// Worked policies.
pub fn worked_policies()
    ensures first_of_two { example.FirstOfTwo }
    ensures any_device { example.AnyDevice }
    ensures any_module { example.AnyModule }
    ensures any_of_both { example.AnyOfBoth }
    ensures none_matches { example.NoneMatches }
    ensures other_names { example.OtherNames }
    ensures later_rule { example.LaterRule }
{}
