//! What a link leads to.

ghost use Rattle.std.specs.Prelude.{◌≡◌, nat_eq, true, false};
ghost use Rattle.cc_explain.specs.Targets.{same_target};

/// What a link leads to: a definition, by the number of its entry, a device, by its number, or the universal
/// capability.
#[derive(Clone, Copy, Debug, PartialEq, Eq)]
pub enum Target {
    Definition(u32),
    Device(u32),
    Cap,
}

/// Whether the targets are the same.
pub fn is_same(target: Target, other: Target) -> bool
    ensures { result ≡ same_target target other }
{
    match (target, other) {
        (Target::Definition(number), Target::Definition(another)) => number == another,
        (Target::Device(number), Target::Device(another)) => number == another,
        (Target::Cap, Target::Cap) => true,
        _ => false,
    }
}
