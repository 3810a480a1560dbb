//! Answering questions about the present modules, which are checked.

ghost use Rattle.std.specs.Prelude.{◌≡◌, ◌-◌, ◌^◌, ◌<◌, List, map, IsTrue, IfSome};
ghost use Rattle.cc_io.specs.Wholes.{WriteAllCause};
ghost use Rattle.cc_verdicts.specs.ModuleLaws.{NamesOfDevicesDiffer};
ghost use Rattle.cc_verdicts.specs.PresentTexts.{ArePresent};
ghost use Rattle.cc_mnf.specs.ElaboratedModules.{device_names};
ghost use Rattle.cc_replies.specs.Requests.{CheckModules, ShowSignature, ShowDerivation, RunDefinition, RunTasks, AuditDefinition, GuardDefinition, ExplainDefinition, ReplayDefinition, Ask, holding_under};
ghost use Rattle.cc_policy.specs.declared.policy.Rule.{Rule};
ghost use Rattle.cc_answers.specs.Carried.{IsReplied};
ghost use Rattle.cc_answers.specs.KeptEntries.{IsKeptFor};
ghost use Rattle.cc_answers.specs.Requests.{request_of, question_in};

use crate::explaining::tell_explanation;
use crate::kept::{Kept, linked_entry};
use crate::replies::{told, write_reply};
use crate::running::{
    Started, audited_reply, replayed_reply, start_all, tell_guarded, tell_run, tell_tasks,
};
use cc_base::code::Code;
use cc_base::name::Name;
use cc_base::text::Text;
use cc_io::{Sink, WriteAll};
use cc_job::job::Command;
use cc_policy::policy::Policy;
use cc_print::Names;
use cc_replies::derivations::{derive_refusal, has_too_many_nodes, write_derivation};
use cc_replies::explanations::explain_refusal;
use cc_replies::policies::{audit_refusal, guard_refusal};
use cc_replies::replays::replay_refusal;
use cc_replies::runs::run_refusal;
use cc_replies::signatures::{sig_refusal, write_signatures};
use cc_replies::tasks::tasks_refusal;
use cc_replies::verdicts::{check_reply, has_refused};
use cc_session::present_entries::EntryError;
use cc_session::session::Session;
use cc_session::standing::{Standing, StandingError};
use std::alloc::{AllocError, Global};

// Writes the verdicts of the present modules.
fn show_verdicts<K: Sink>(alloc: Global, session: &Session, sink: &mut K) -> Result<bool, WriteAll>
    requires count { K.faults sink.old < 2 ^ 64 - 1 }
    requires checked { IsTrue session.now.checked }
    ensures replied { (rules : List Rule) → IsReplied session.now.devices (holding_under rules session.now.present) (Ask CheckModules)
        (K.written sink.old) (K.written sink.new) result }
    ensures cause { WriteAllCause (K.faults sink.old) (K.faults sink.new) result }
{
    let verdicts = session.verdicts();
    let refused = has_refused(verdicts);
    write_reply(sink, check_reply(alloc, verdicts), refused)
}

// Writes the signatures of the module's definitions.
fn show_signatures<K: Sink>(
    alloc: Global,
    names: &Names,
    session: &Session,
    name: &Name,
    sink: &mut K,
) -> Result<bool, WriteAll>
    requires count { K.faults sink.old < 2 ^ 64 - 1 }
    requires checked { IsTrue session.now.checked }
    requires names { (names.now.names.items ≡ device_names session.now.devices) × (names.now.locals ≡ 0) }
    ensures replied { (rules : List Rule) → IsReplied session.now.devices (holding_under rules session.now.present) (Ask (ShowSignature name.now))
        (K.written sink.old) (K.written sink.new) result }
    ensures cause { WriteAllCause (K.faults sink.old) (K.faults sink.new) result }
{
    match session.sig(name) {
        Ok(defs) => told(write_signatures(alloc, sink, name, names, defs), false),
        Err(refused) => write_reply(sink, sig_refusal(alloc, name, refused.code), true),
    }
}

// Writes the certificate of the definition.
fn show_derivation<K: Sink>(
    alloc: Global,
    session: &Session,
    module: &Name,
    def: &Name,
    sink: &mut K,
) -> Result<bool, WriteAll>
    requires count { K.faults sink.old < 2 ^ 64 - 1 }
    requires checked { IsTrue session.now.checked }
    requires differ { NamesOfDevicesDiffer session.now.devices }
    requires present { ArePresent session.now.present }
    ensures replied { (rules : List Rule) → IsReplied session.now.devices (holding_under rules session.now.present) (Ask (ShowDerivation «module».now def.now))
        (K.written sink.old) (K.written sink.new) result }
    ensures cause { WriteAllCause (K.faults sink.old) (K.faults sink.new) result }
{
    match session.standing(module, def) {
        Ok(
            Standing {
                ctx,
                names,
                def: found,
            },
        ) => {
            let names = Names { names, locals: 0 };
            let many = match has_too_many_nodes(alloc, &ctx, &found.checked) {
                Ok(many) => many,
                Err(AllocError) => return Err(WriteAll::NoMemory),
            };
            if many {
                return write_reply(sink, derive_refusal(alloc, module, def, Code::E36), true);
            }
            told(
                write_derivation(alloc, sink, module, def, &names, &ctx, &found.checked),
                false,
            )
        }
        Err(StandingError::Refused(refused)) => write_reply(
            sink,
            derive_refusal(alloc, module, def, refused.code),
            true,
        ),
        Err(StandingError::NoMemory) => Err(WriteAll::NoMemory),
    }
}

// Runs the definition of the module and writes what is told of the run.
fn show_run<K: Sink>(
    alloc: Global,
    names: &Names,
    session: &Session,
    kept: &mut Kept,
    module: &Name,
    def: &Name,
    fuel: u32,
    sink: &mut K,
) -> Result<bool, WriteAll>
    requires count { K.faults sink.old < 2 ^ 64 - 1 }
    requires checked { IsTrue session.now.checked }
    requires differ { NamesOfDevicesDiffer session.now.devices }
    requires present { ArePresent session.now.present }
    requires kept { IsKeptFor session.now.devices session.now.present kept.old }
    requires names { (names.now.names.items ≡ device_names session.now.devices) × (names.now.locals ≡ 0) }
    ensures replied { (rules : List Rule) → IsReplied session.now.devices (holding_under rules session.now.present) (Ask (RunDefinition «module».now def.now fuel))
        (K.written sink.old) (K.written sink.new) result }
    ensures kept { IsKeptFor session.now.devices session.now.present kept.new }
    ensures cause { WriteAllCause (K.faults sink.old) (K.faults sink.new) result }
{
    match linked_entry(alloc, session, kept, module, def) {
        Ok(linked) => tell_run(
            alloc,
            "run",
            names,
            session.devices(),
            module,
            def,
            fuel,
            &linked,
            sink,
        ),
        Err(EntryError::Refused(refused)) => write_reply(
            sink,
            run_refusal(alloc, module, def, refused.code),
            true,
        ),
        Err(EntryError::NoMemory) => Err(WriteAll::NoMemory),
    }
}

// Runs the definitions interleaved and writes what is told of the run.
fn show_tasks<K: Sink>(
    alloc: Global,
    names: &Names,
    session: &Session,
    kept: &mut Kept,
    fuel: u32,
    schedule: &[u32],
    tasks: &[(Name, Name)],
    sink: &mut K,
) -> Result<bool, WriteAll>
    requires count { K.faults sink.old < 2 ^ 64 - 1 }
    requires checked { IsTrue session.now.checked }
    requires differ { NamesOfDevicesDiffer session.now.devices }
    requires present { ArePresent session.now.present }
    requires kept { IsKeptFor session.now.devices session.now.present kept.old }
    requires names { (names.now.names.items ≡ device_names session.now.devices) × (names.now.locals ≡ 0) }
    ensures replied { (rules : List Rule) → IsReplied session.now.devices (holding_under rules session.now.present) (Ask (RunTasks fuel schedule.now tasks.now))
        (K.written sink.old) (K.written sink.new) result }
    ensures kept { IsKeptFor session.now.devices session.now.present kept.new }
    ensures cause { WriteAllCause (K.faults sink.old) (K.faults sink.new) result }
{
    match start_all(alloc, session, kept, tasks) {
        Ok(Started::All(entries)) => tell_tasks(
            alloc,
            names,
            session.devices(),
            fuel,
            schedule,
            &entries,
            sink,
        ),
        Ok(Started::Refused { code, task }) => {
            match tasks.get(task) {
                Some(one) => write_reply(sink, tasks_refusal(alloc, code, &one.0, &one.1), true),
                None => unreachable!(),
            }
        }
        Err(AllocError) => Err(WriteAll::NoMemory),
    }
}

// Writes what the policy decides for the definition of the module.
fn show_audit<K: Sink>(
    alloc: Global,
    names: &Names,
    session: &Session,
    kept: &mut Kept,
    policy: &Policy,
    module: &Name,
    def: &Name,
    sink: &mut K,
) -> Result<bool, WriteAll>
    requires count { K.faults sink.old < 2 ^ 64 - 1 }
    requires checked { IsTrue session.now.checked }
    requires differ { NamesOfDevicesDiffer session.now.devices }
    requires present { ArePresent session.now.present }
    requires kept { IsKeptFor session.now.devices session.now.present kept.old }
    requires names { (names.now.names.items ≡ device_names session.now.devices) × (names.now.locals ≡ 0) }
    ensures replied { IsReplied session.now.devices (holding_under policy.now session.now.present) (Ask (AuditDefinition «module».now def.now))
        (K.written sink.old) (K.written sink.new) result }
    ensures kept { IsKeptFor session.now.devices session.now.present kept.new }
    ensures cause { WriteAllCause (K.faults sink.old) (K.faults sink.new) result }
{
    match linked_entry(alloc, session, kept, module, def) {
        Ok(linked) => write_reply(
            sink,
            audited_reply(alloc, names, policy, module, def, &linked),
            false,
        ),
        Err(EntryError::Refused(refused)) => write_reply(
            sink,
            audit_refusal(alloc, module, def, refused.code),
            true,
        ),
        Err(EntryError::NoMemory) => Err(WriteAll::NoMemory),
    }
}

// Runs the definition of the module, if the policy permits that, and writes what is told of the run.
fn show_guarded<K: Sink>(
    alloc: Global,
    names: &Names,
    session: &Session,
    kept: &mut Kept,
    policy: &Policy,
    module: &Name,
    def: &Name,
    fuel: u32,
    sink: &mut K,
) -> Result<bool, WriteAll>
    requires count { K.faults sink.old < 2 ^ 64 - 1 }
    requires checked { IsTrue session.now.checked }
    requires differ { NamesOfDevicesDiffer session.now.devices }
    requires present { ArePresent session.now.present }
    requires kept { IsKeptFor session.now.devices session.now.present kept.old }
    requires names { (names.now.names.items ≡ device_names session.now.devices) × (names.now.locals ≡ 0) }
    ensures replied { IsReplied session.now.devices (holding_under policy.now session.now.present) (Ask (GuardDefinition «module».now def.now fuel))
        (K.written sink.old) (K.written sink.new) result }
    ensures kept { IsKeptFor session.now.devices session.now.present kept.new }
    ensures cause { WriteAllCause (K.faults sink.old) (K.faults sink.new) result }
{
    match linked_entry(alloc, session, kept, module, def) {
        Ok(linked) => tell_guarded(
            alloc,
            names,
            session.devices(),
            policy,
            module,
            def,
            fuel,
            &linked,
            sink,
        ),
        Err(EntryError::Refused(refused)) => write_reply(
            sink,
            guard_refusal(alloc, module, def, refused.code),
            true,
        ),
        Err(EntryError::NoMemory) => Err(WriteAll::NoMemory),
    }
}

// Explains why each element is in the signature of the definition.
fn show_explanation<K: Sink>(
    alloc: Global,
    names: &Names,
    session: &Session,
    kept: &mut Kept,
    module: &Name,
    def: &Name,
    sink: &mut K,
) -> Result<bool, WriteAll>
    requires count { K.faults sink.old < 2 ^ 64 - 1 }
    requires checked { IsTrue session.now.checked }
    requires differ { NamesOfDevicesDiffer session.now.devices }
    requires present { ArePresent session.now.present }
    requires kept { IsKeptFor session.now.devices session.now.present kept.old }
    requires names { (names.now.names.items ≡ device_names session.now.devices) × (names.now.locals ≡ 0) }
    ensures replied { (rules : List Rule) → IsReplied session.now.devices (holding_under rules session.now.present) (Ask (ExplainDefinition «module».now def.now))
        (K.written sink.old) (K.written sink.new) result }
    ensures kept { IsKeptFor session.now.devices session.now.present kept.new }
    ensures cause { WriteAllCause (K.faults sink.old) (K.faults sink.new) result }
{
    match session.standing(module, def) {
        Ok(it) => tell_explanation(
            alloc,
            names,
            session,
            kept,
            module,
            def,
            &it.def.checked.sig.set,
            sink,
        ),
        Err(StandingError::Refused(refused)) => write_reply(
            sink,
            explain_refusal(alloc, module, def, refused.code),
            true,
        ),
        Err(StandingError::NoMemory) => Err(WriteAll::NoMemory),
    }
}

// Replays the lines of the text with the definition of the module, and writes what comes of it.
fn show_replay<K: Sink>(
    alloc: Global,
    names: &Names,
    session: &Session,
    kept: &mut Kept,
    module: &Name,
    def: &Name,
    fuel: u32,
    text: &Text,
    sink: &mut K,
) -> Result<bool, WriteAll>
    requires count { K.faults sink.old < 2 ^ 64 - 1 }
    requires checked { IsTrue session.now.checked }
    requires differ { NamesOfDevicesDiffer session.now.devices }
    requires present { ArePresent session.now.present }
    requires kept { IsKeptFor session.now.devices session.now.present kept.old }
    requires names { (names.now.names.items ≡ device_names session.now.devices) × (names.now.locals ≡ 0) }
    ensures replied { (rules : List Rule) → IsReplied session.now.devices (holding_under rules session.now.present) (Ask (ReplayDefinition «module».now def.now fuel text.now))
        (K.written sink.old) (K.written sink.new) result }
    ensures kept { IsKeptFor session.now.devices session.now.present kept.new }
    ensures cause { WriteAllCause (K.faults sink.old) (K.faults sink.new) result }
{
    match linked_entry(alloc, session, kept, module, def) {
        Ok(linked) => {
            match replayed_reply(alloc, names, module, def, fuel, text.as_bytes(), &linked) {
                Ok((reply, refused)) => write_reply(sink, Ok(reply), refused),
                Err(AllocError) => Err(WriteAll::NoMemory),
            }
        }
        Err(EntryError::Refused(refused)) => write_reply(
            sink,
            replay_refusal(alloc, module, def, refused.code),
            true,
        ),
        Err(EntryError::NoMemory) => Err(WriteAll::NoMemory),
    }
}

/// Answers the question of the command, if it is one, where the policy is in force, and tells whether the reply is a
/// refusal.
pub fn answer_checked<K: Sink>(
    alloc: Global,
    names: &Names,
    session: &Session,
    kept: &mut Kept,
    policy: &Policy,
    command: &Command,
    sink: &mut K,
) -> Result<bool, WriteAll>
    requires count { K.faults sink.old < 2 ^ 64 - 1 }
    requires checked { IsTrue session.now.checked }
    requires differ { NamesOfDevicesDiffer session.now.devices }
    requires present { ArePresent session.now.present }
    requires kept { IsKeptFor session.now.devices session.now.present kept.old }
    requires names { (names.now.names.items ≡ device_names session.now.devices) × (names.now.locals ≡ 0) }
    ensures replied { IfSome (question_in (request_of command.now))
        (λ question. IsReplied session.now.devices (holding_under policy.now session.now.present) (Ask question)
        (K.written sink.old) (K.written sink.new) result) }
    ensures kept { IsKeptFor session.now.devices session.now.present kept.new }
    ensures cause { WriteAllCause (K.faults sink.old) (K.faults sink.new) result }
{
    match command {
        Command::Put(_, _) | Command::Drop(_) | Command::Verify(_) | Command::Policy(_) => Ok(
            false,
        ),
        Command::Check => show_verdicts(alloc, session, sink),
        Command::Sig(name) => show_signatures(alloc, names, session, name, sink),
        Command::Derive(module, def) => show_derivation(alloc, session, module, def, sink),
        Command::Run(module, def, fuel) => {
            show_run(alloc, names, session, kept, module, def, *fuel, sink)
        }
        Command::Tasks(fuel, schedule, tasks) => show_tasks(
            alloc,
            names,
            session,
            kept,
            *fuel,
            schedule.as_slice(),
            tasks.as_slice(),
            sink,
        ),
        Command::Audit(module, def) => {
            show_audit(alloc, names, session, kept, policy, module, def, sink)
        }
        Command::Explain(module, def) => {
            show_explanation(alloc, names, session, kept, module, def, sink)
        }
        Command::Replay(module, def, fuel, text) => {
            show_replay(alloc, names, session, kept, module, def, *fuel, text, sink)
        }
        Command::Guard(module, def, fuel) => show_guarded(
            alloc, names, session, kept, policy, module, def, *fuel, sink,
        ),
    }
}
