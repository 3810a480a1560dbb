//! Why elaboration refuses a module.

ghost use Rattle.std.specs.Prelude.{IfOk};
ghost use Rattle.cc_parse.specs.Trees.{module_syntax};
ghost use Rattle.cc_verdicts.specs.ModuleLaws.{NamesOfDevicesDiffer};
ghost use Rattle.cc_why.specs.ToldReasons.{TellsElaboration};

use crate::why::ReasonLines;
use cc_base::device::DeviceDecl;
use cc_elaboration_reasoning::{ElaborationRefusal, first_refusal};
use cc_parse::tree::Module;
use std::alloc::{AllocError, Global};

/// The lines of the cause of the first refusal of the module's elaboration, if it is refused. Fails only for want of memory, as
/// which more than 2^32 - 1 names count.
pub(crate) fn cause_lines(
    alloc: Global,
    devices: &[DeviceDecl],
    tree: &Module,
) -> Result<Option<ReasonLines>, AllocError>
    requires { NamesOfDevicesDiffer devices.now }
    ensures { IfOk result (TellsElaboration devices.now (module_syntax tree.now)) }
{
    match first_refusal(alloc, tree, devices)? {
        Some(ElaborationRefusal { cause, at: _ }) => Ok(Some(ReasonLines::OfCause(cause))),
        None => Ok(None),
    }
}
