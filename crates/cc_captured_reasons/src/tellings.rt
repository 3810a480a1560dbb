//! What numbers, one for each position, tell of elements: none of one that is below a set, and else how near it is to an end.

ghost use Rattle.std.specs.Prelude.{◌≡◌, ◌+◌, ◌<◌, None, IfSome, option_map};
ghost use Rattle.cc_core.specs.TermViews.{bind_of, context_of};
ghost use Rattle.cc_reasons.specs.ReasonTexts.{declared_members};
ghost use Rattle.cc_captured_reasons.specs.Tellings.{AreLow, number_of, telling_beyond, telling, lower, lowest, number_from, number_at, is_number, found_or_this, first_numbered, members_of};

use cc_capture::{CapSet, Elem, Var};
use cc_core::{Bind, Ctx};

// What stands for a variable.
fn number_of(told: &[Option<u32>], variable: Var) -> Option<u32>
    ensures { result ≡ number_of told.now variable }
{
    match variable {
        Var::Free(position) => match told.get(position as usize) {
            Some(number) => *number,
            None => None,
        },
        Var::Bound(_) => Some(0),
    }
}

// What is told of an element that the set does not have.
fn telling_beyond(told: &[Option<u32>], elem: Elem) -> Option<u32>
    ensures { result ≡ telling_beyond told.now elem }
{
    match elem {
        Elem::Var(variable) => number_of(told, variable),
        Elem::Cap => Some(0),
        Elem::Hole(_) => Some(0),
    }
}

/// What is told of an element.
pub fn telling(told: &[Option<u32>], right: &CapSet, elem: Elem) -> Option<u32>
    ensures { result ≡ telling told.now right.now elem }
{
    if right.contains(elem) {
        None
    } else {
        telling_beyond(told, elem)
    }
}

// The lower of two numbers, as far as they are there.
fn lower(number: Option<u32>, other: Option<u32>) -> Option<u32>
    ensures { result ≡ lower number other }
{
    match number {
        None => other,
        Some(low) => match other {
            None => Some(low),
            Some(high) => { if low <= high { Some(low) } else { Some(high) } }
        },
    }
}

// The lowest number that is told of the members of a set.
fn lowest(told: &[Option<u32>], right: &CapSet, set: &CapSet) -> Option<u32>
    ensures { result ≡ lowest (telling told.now right.now) None set.now.list }
{
    let mut number = None;
    for elem in set.iter() {
        number = lower(number, telling(told, right, elem));
    }
    number
}

// What is told of a position, where this is the lowest that is told of its declared set.
fn number_from(devices: u32, position: u32, least: Option<u32>) -> Option<u32>
    requires { IfSome least (λ number. number < 4294967295) }
    ensures { result ≡ number_from devices position least }
{
    match least {
        None => None,
        Some(number) => {
            if position < devices {
                Some(0)
            } else {
                Some(number + 1)
            }
        }
    }
}

// The lowest number that is told of the members of an entry's declared set.
fn lowest_at(told: &[Option<u32>], right: &CapSet, entry: Option<&Bind>) -> Option<u32>
    ensures { result ≡ lowest (telling told.now right.now) None (declared_members (option_map (λ b. bind_of b.now) entry.entry)) }
{
    match entry {
        Some(bind) => match bind {
            Bind::Var(ty) => lowest(told, right, &ty.set),
            Bind::TVar(_) => None,
            Bind::Unread { set, .. } => lowest(told, right, set),
        },
        None => None,
    }
}

/// What is told of a position with such an entry.
pub fn number_at(
    devices: u32,
    right: &CapSet,
    told: &[Option<u32>],
    position: u32,
    entry: Option<&Bind>,
) -> Option<u32>
    requires { AreLow told.now 4294967295 }
    ensures { result ≡ number_at devices right.now told.now position (option_map (λ b. bind_of b.now) entry.entry) }
{
    let least = lowest_at(told, right, entry);
    number_from(devices, position, least)
}

// Whether the number is told.
fn is_number(number: u32, told: Option<u32>) -> bool
    ensures { result ≡ is_number number told }
{
    match told {
        None => false,
        Some(other) => other == number,
    }
}

// What was found, and else the element, if it passes.
fn found_or_this(found: Option<Elem>, passes: bool, elem: Elem) -> Option<Elem>
    ensures { result ≡ found_or_this found passes elem }
{
    match found {
        Some(other) => Some(other),
        None => { if passes { Some(elem) } else { None } }
    }
}

// The first member of a set of which the number is told.
fn first_numbered(told: &[Option<u32>], right: &CapSet, number: u32, set: &CapSet) -> Option<Elem>
    ensures { result ≡ first_numbered (telling told.now right.now) number None set.now.list }
{
    let mut found = None;
    for elem in set.iter() {
        let passes = is_number(number, telling(told, right, elem));
        found = found_or_this(found, passes, elem);
    }
    found
}

// The first member of an entry's declared set of which the number is told.
fn first_at(told: &[Option<u32>], right: &CapSet, number: u32, entry: Option<&Bind>) -> Option<Elem>
    ensures { result ≡ first_numbered (telling told.now right.now) number None (declared_members (option_map (λ b. bind_of b.now) entry.entry)) }
{
    match entry {
        Some(bind) => match bind {
            Bind::Var(ty) => first_numbered(told, right, number, &ty.set),
            Bind::TVar(_) => None,
            Bind::Unread { set, .. } => first_numbered(told, right, number, set),
        },
        None => None,
    }
}

// The same of a variable's declared set.
fn first_of_variable(
    ctx: &Ctx,
    told: &[Option<u32>],
    right: &CapSet,
    number: u32,
    variable: Var,
) -> Option<Elem>
    ensures { result ≡ first_numbered (telling told.now right.now) number None (members_of (context_of ctx.now) (Elem.Var variable)) }
{
    match variable {
        Var::Free(position) => first_at(told, right, number, ctx.get(position)),
        Var::Bound(_) => None,
    }
}

/// The first member of an element's declared set of which the number is told.
pub fn first_of(
    ctx: &Ctx,
    told: &[Option<u32>],
    right: &CapSet,
    number: u32,
    elem: Elem,
) -> Option<Elem>
    ensures { result ≡ first_numbered (telling told.now right.now) number None (members_of (context_of ctx.now) elem) }
{
    match elem {
        Elem::Var(variable) => first_of_variable(ctx, told, right, number, variable),
        Elem::Cap => None,
        Elem::Hole(_) => None,
    }
}
