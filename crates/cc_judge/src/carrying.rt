//! Carrying out the plans for the present modules. Nothing can fail here.

ghost use Rattle.std.specs.Prelude.{◌≡◌, ℕ, ◌+◌, ◌<◌, ◌++◌, [], ◌∷◌, take, length, map, reverse, Some, slice_get};
ghost use Rattle.cc_judge.specs.Carrying.{HasOneEach, HasRoom, IsWithin, left_by, AreReady};
ghost use Rattle.cc_judge.specs.Kept.{judged_on, judgements_of};
ghost use Rattle.cc_judge.specs.Plans.{plan_judgement, planned};

use crate::grounds::Grounds;
use crate::last::Last;
use crate::plans::Plan;
use cc_base::name::Name;
use cc_module::judgement::ModuleVerdict;

// Puts a judgement behind the new ones.
fn put(new: &mut Last, entry: (Name, ModuleVerdict), grounds: Grounds)
    requires one_each { HasOneEach new.old }
    requires room { HasRoom 1 new.old }
    ensures one_each { HasOneEach new.new }
    ensures room { (more : ℕ) → HasRoom (more + 1) new.old → HasRoom more new.new }
    ensures judged { judgements_of new.new ≡ judgements_of new.old ++ judged_on entry grounds ∷ [] }
{
    new.verdicts.push_reserved(entry);
    new.grounds.push_reserved(grounds);
}

// Puts the old judgement at the place behind the new ones. Those from there on are gone.
fn keep(old: &mut Last, at: usize, new: &mut Last)
    requires within { at < length old.old.verdicts.items }
    requires old_each { HasOneEach old.old }
    requires one_each { HasOneEach new.old }
    requires room { HasRoom 1 new.old }
    ensures count { length old.new.verdicts.items ≡ at }
    ensures old_each { HasOneEach old.new }
    ensures left { judgements_of old.new ≡ take at (judgements_of old.old) }
    ensures one_each { HasOneEach new.new }
    ensures room { (more : ℕ) → HasRoom (more + 1) new.old → HasRoom more new.new }
    ensures judged { map Some (judgements_of new.new) ≡ map Some (judgements_of new.old) ++ slice_get (judgements_of old.old) at ∷ [] }
{
    old.verdicts.truncate(at + 1);
    old.grounds.truncate(at + 1);
    let entry = old.verdicts.take_last();
    let grounds = old.grounds.take_last();
    put(&mut *new, entry, grounds);
}

// Carries out a plan.
fn carry(old: &mut Last, plan: Plan, new: &mut Last)
    requires within { IsWithin (length old.old.verdicts.items) plan }
    requires old_each { HasOneEach old.old }
    requires one_each { HasOneEach new.old }
    requires room { HasRoom 1 new.old }
    ensures count { length old.new.verdicts.items ≡ left_by (length old.old.verdicts.items) plan }
    ensures old_each { HasOneEach old.new }
    ensures left { judgements_of old.new ≡ take (left_by (length old.old.verdicts.items) plan) (judgements_of old.old) }
    ensures one_each { HasOneEach new.new }
    ensures room { (more : ℕ) → HasRoom (more + 1) new.old → HasRoom more new.new }
    ensures judged { map Some (judgements_of new.new) ≡ map Some (judgements_of new.old) ++ plan_judgement (judgements_of old.old) plan ∷ [] }
{
    match plan {
        Plan::Keep(at) => keep(old, at, new),
        Plan::Judge(name, verdict, grounds) => put(new, (name, verdict), grounds),
    }
}

// Turns the judgements round.
fn turn_round(new: &mut Last)
    requires { HasOneEach new.old }
    ensures one_each { HasOneEach new.new }
    ensures judged { judgements_of new.new ≡ reverse (judgements_of new.old) }
{
    new.verdicts.reverse();
    new.grounds.reverse();
}

/// Carries out the plans, the last one first, so that the new judgements stand in the order of the plans turned round.
pub(crate) fn carry_out(mut old: Last, mut plans: Vec<Option<Plan>>, new: &mut Last)
    requires ready { AreReady plans.items (length old.verdicts.items) }
    requires old_each { HasOneEach old }
    requires empty { judgements_of new.old ≡ [] }
    requires one_each { HasOneEach new.old }
    requires room { HasRoom (length plans.items) new.old }
    ensures one_each { HasOneEach new.new }
    ensures carried { map Some (judgements_of new.new) ≡ map (planned (judgements_of old)) plans.items }
{
    while let Some(next) = plans.pop() {
        if let Some(plan) = next {
            carry(&mut old, plan, &mut *new);
        }
    }
    turn_round(&mut *new);
}
