//! What is found for an import, before the module is judged.

ghost use Rattle.std.specs.Prelude.{◌≡◌};
ghost use Rattle.cc_verdicts.specs.ModuleVerdicts as plain;
ghost use Rattle.cc_module.specs.Findings.{finding_of};

use cc_base::code::Code;
use cc_core::Ty;

/// What is found for an import.
#[derive(Drop)]
pub enum Finding {
    /// A definition whose signature is this type.
    Found(Ty),
    /// No module of the name is present.
    Unknown,
    /// The module leads back to the importing one, or is that one.
    Cycle,
    /// The module is refused.
    RefusedModule,
    /// The module is accepted, and has no definition of the name.
    NoDef,
}

/// The code with which an import is refused, if it is.
pub(crate) fn code_of(finding: &Finding) -> Option<Code>
    ensures { result ≡ plain.code_of (finding_of finding.now) }
{
    match finding {
        Finding::Found(_) => None,
        Finding::Unknown => Some(Code::E05),
        Finding::Cycle => Some(Code::E08),
        Finding::RefusedModule => Some(Code::E07),
        Finding::NoDef => Some(Code::E06),
    }
}
