//! Telling why a module is refused.

ghost use Rattle.std.specs.Prelude.{◌≡◌, ◌-◌, ◌^◌, ◌<◌, IfOk, IsTrue};
ghost use Rattle.cc_io.specs.Wholes.{WriteAllCause};
ghost use Rattle.cc_verdicts.specs.ModuleLaws.{NamesOfDevicesDiffer};
ghost use Rattle.cc_verdicts.specs.PresentTexts.{ArePresent};
ghost use Rattle.cc_why.specs.ToldReasons.{why_of};
ghost use Rattle.cc_why.specs.WhyTexts.{is_refusal, TellsWhy};

use crate::reasons::find_why;
use crate::why::Why;
use crate::writing::write_why;
use cc_base::name::Name;
use cc_base::steps::Steps;
use cc_io::{Sink, WriteAll};
use cc_session::session::Session;
use std::alloc::{AllocError, Global};
use std::sync::ledger::Ledger;

// Whether the answer refuses the question.
fn refuses(why: &Why) -> bool
    ensures { result ≡ is_refusal (why_of why.now) }
{
    match why {
        Why::NoSuchModule => true,
        Why::NotRefused => false,
        Why::RefusedSince(_, _) => false,
    }
}

// Writes why the module is refused, where the modules are checked.
fn tell_checked<K: Sink>(
    alloc: Global,
    session: &Session,
    name: &Name,
    sink: &mut K,
) -> Result<bool, WriteAll>
    requires count { K.faults sink.old < 2 ^ 64 - 1 }
    requires checked { IsTrue session.now.checked }
    requires differ { NamesOfDevicesDiffer session.now.devices }
    requires present { ArePresent session.now.present }
    ensures tells { TellsWhy session.now.devices session.now.present name.now (K.written sink.old) (K.written sink.new) result }
    ensures cause { WriteAllCause (K.faults sink.old) (K.faults sink.new) result }
{
    match find_why(alloc, session, name) {
        Ok(why) => {
            write_why(alloc, sink, name, &why)?;
            Ok(refuses(&why))
        }
        Err(AllocError) => Err(WriteAll::NoMemory),
    }
}

/// Writes why the module of the name is refused, or that it is not, or that it is not present. It tells whether that is a
/// refusal of the question, as it is where no such module is present. The session is checked for it.
///
/// `WriteFault`: a write failed, and the count of faults rose. `NoMemory`: memory lacked. At an error a front was written.
pub fn tell_why<K: Sink, L: Ledger>(
    alloc: Global,
    session: &mut Session,
    name: &Name,
    sink: &mut K,
    steps: &mut Steps<L>,
) -> Result<bool, WriteAll>
    requires count { K.faults sink.old < 2 ^ 64 - 1 }
    requires differ { NamesOfDevicesDiffer session.old.devices }
    requires present { ArePresent session.old.present }
    ensures tells { TellsWhy session.old.devices session.old.present name.now (K.written sink.old) (K.written sink.new) result }
    ensures texts { (session.new.devices ≡ session.old.devices) × (session.new.present ≡ session.old.present) }
    ensures cause { WriteAllCause (K.faults sink.old) (K.faults sink.new) result }
{
    match session.check(steps) {
        Ok(()) => tell_checked(alloc, session, name, sink),
        Err(AllocError) => Err(WriteAll::NoMemory),
    }
}
