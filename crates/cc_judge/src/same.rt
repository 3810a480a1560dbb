//! Whether what is found is the same.

ghost use Rattle.std.specs.Prelude.{◌≡◌, map, nat_eq, ◌&&◌, IsTrue};
ghost use Rattle.std.specs.Str.{bytes_eq};
ghost use Rattle.cc_core.specs.TermViews.{type_of};
ghost use Rattle.cc_module.specs.Findings.{finding_of};
ghost use Rattle.cc_judge.specs.SameFindings as plain;
ghost use Rattle.cc_judge.specs.Settled.{AreOneIfFound};

use crate::grounds::Grounds;
use crate::reading::ReadText;
use cc_core::Ty;
use cc_core::same::same_type;
use cc_module::finding::Finding;

fn kind_of(finding: &Finding) -> u32
    ensures { result ≡ plain.kind_of (finding_of finding.now) }
{
    match finding {
        Finding::Found(_) => 0,
        Finding::Unknown => 1,
        Finding::Cycle => 2,
        Finding::RefusedModule => 3,
        Finding::NoDef => 4,
    }
}

fn is_found_as(ty: &Ty, finding: &Finding) -> bool
    ensures { result ≡ plain.is_found_as (type_of ty.now) (finding_of finding.now) }
{
    match finding {
        Finding::Found(other) => same_type(ty, other),
        Finding::Unknown | Finding::Cycle | Finding::RefusedModule | Finding::NoDef => false,
    }
}

/// Whether the two are the same.
pub(crate) fn same_finding(left: &Finding, right: &Finding) -> bool
    ensures { result ≡ plain.same_finding (finding_of left.now) (finding_of right.now) }
{
    match left {
        Finding::Found(ty) => is_found_as(ty, right),
        Finding::Unknown => 1 == kind_of(right),
        Finding::Cycle => 2 == kind_of(right),
        Finding::RefusedModule => 3 == kind_of(right),
        Finding::NoDef => 4 == kind_of(right),
    }
}

/// Whether a definition is found.
pub(crate) fn is_found(finding: &Finding) -> bool
    ensures { result ≡ nat_eq (plain.kind_of (finding_of finding.now)) 0 }
{
    kind_of(finding) == 0
}

/// Whether the two are the same, where it may be known that they are if both are definitions.
pub(crate) fn same_as_known(known: bool, left: &Finding, right: &Finding) -> bool
    requires { IsTrue known → AreOneIfFound (finding_of left.now) (finding_of right.now) }
    ensures { result ≡ plain.same_finding (finding_of left.now) (finding_of right.now) }
{
    if known {
        let kind = kind_of(left);
        let other = kind_of(right);
        kind == other
    } else {
        same_finding(left, right)
    }
}

/// Whether what is found for some imports is the same.
pub(crate) fn same_findings(left: &[Finding], right: &[Finding]) -> bool
    ensures { result ≡ plain.same_findings (map finding_of left.now) (map finding_of right.now) }
{
    if left.len() != right.len() {
        return false;
    }
    for at in 0..left.len() {
        if !same_finding(&left[at], &right[at]) {
            return false;
        }
    }
    true
}
