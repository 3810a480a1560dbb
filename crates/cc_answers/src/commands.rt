//! Carrying out the commands of a job: each reply is written before the next command.

ghost use Rattle.std.specs.Prelude.{◌≡◌, ◌-◌, ◌^◌, ◌<◌, ◌||◌, List, [], map, IfSome, IfOk};
ghost use Rattle.cc_base.specs.declared.device.DeviceDecl.{DeviceDecl};
ghost use Rattle.cc_io.specs.Wholes.{WriteAllCause};
ghost use Rattle.cc_verdicts.specs.ModuleLaws.{NamesOfDevicesDiffer};
ghost use Rattle.cc_verdicts.specs.PresentTexts.{ArePresent};
ghost use Rattle.cc_mnf.specs.ElaboratedModules.{device_names};
ghost use Rattle.cc_replies.specs.Replies.{rules_after};
ghost use Rattle.cc_replies.specs.Requests.{JobState, PutText, DropModule, SetPolicy, VerifyText, Ask, holding, holding_under, no_module};
ghost use Rattle.cc_answers.specs.Carried.{IsReplied, Changes, Judges, AreAnswered};
ghost use Rattle.cc_answers.specs.KeptEntries.{IsKeptFor, StayWhereRefused};
ghost use Rattle.cc_answers.specs.Requests.{request_of, requests_of, question_in};

use crate::kept::{Kept, give_up_where_changed};
use crate::questions::answer_checked;
use crate::replies::write_reply;
use cc_base::code::Code;
use cc_base::name::Name;
use cc_base::steps::Steps;
use cc_base::text::Text;
use cc_io::{Sink, WriteAll};
use cc_job::job::{Command, Job};
use cc_policy::policy::Policy;
use cc_print::Names;
use cc_replies::certificates::verify_reply;
use cc_replies::modules::{drop_refusal, drop_reply, put_refusal, put_reply};
use cc_replies::policies::policy_reply;
use cc_replies::signatures::names_of;
use cc_session::refusals::{NoSuchModule, PutRefused};
use cc_session::session::Session;
use std::alloc::{AllocError, Global};
use std::mem::forget;
use std::sync::ledger::Ledger;

// Puts the module in, whose name and text were copied, and writes the reply.
fn put_copy<K: Sink>(
    alloc: Global,
    session: &mut Session,
    name: &Name,
    key: Name,
    text: Vec<u8>,
    sink: &mut K,
) -> Result<bool, WriteAll>
    requires count { K.faults sink.old < 2 ^ 64 - 1 }
    requires key { key ≡ name.now }
    ensures replied { IsReplied session.old.devices (holding session.old.present) (PutText name.now text.items)
        (K.written sink.old) (K.written sink.new) result }
    ensures changes { Changes session.old session.new (PutText name.now text.items) result }
    ensures stay { StayWhereRefused result session.old.present session.new.present }
    ensures last { session.new.last ≡ session.old.last }
    ensures cause { WriteAllCause (K.faults sink.old) (K.faults sink.new) result }
{
    match session.put(key, text) {
        Ok(()) => write_reply(sink, put_reply(alloc, name), false),
        Err(PutRefused::TooLong) => write_reply(sink, put_refusal(alloc, name, Code::E30), true),
        Err(PutRefused::TooMany) => write_reply(sink, put_refusal(alloc, name, Code::E31), true),
        Err(PutRefused::NoMemory) => Err(WriteAll::NoMemory),
    }
}

// Puts the module in and writes the reply.
fn put_module<K: Sink>(
    alloc: Global,
    session: &mut Session,
    name: &Name,
    text: &Text,
    sink: &mut K,
) -> Result<bool, WriteAll>
    requires { K.faults sink.old < 2 ^ 64 - 1 }
    ensures replied { IsReplied session.old.devices (holding session.old.present) (PutText name.now text.now)
        (K.written sink.old) (K.written sink.new) result }
    ensures changes { Changes session.old session.new (PutText name.now text.now) result }
    ensures stay { StayWhereRefused result session.old.present session.new.present }
    ensures last { session.new.last ≡ session.old.last }
    ensures cause { WriteAllCause (K.faults sink.old) (K.faults sink.new) result }
{
    let Ok(key) = name.clone() else {
        return Err(WriteAll::NoMemory);
    };
    let Ok(bytes) = Vec::from_slice(alloc, text.as_bytes()) else {
        return Err(WriteAll::NoMemory);
    };
    put_copy(alloc, session, name, key, bytes, sink)
}

// Removes the module and writes the reply.
fn drop_module<K: Sink>(
    alloc: Global,
    session: &mut Session,
    name: &Name,
    sink: &mut K,
) -> Result<bool, WriteAll>
    requires { K.faults sink.old < 2 ^ 64 - 1 }
    ensures replied { IsReplied session.old.devices (holding session.old.present) (DropModule name.now)
        (K.written sink.old) (K.written sink.new) result }
    ensures changes { Changes session.old session.new (DropModule name.now) result }
    ensures stay { StayWhereRefused result session.old.present session.new.present }
    ensures last { session.new.last ≡ session.old.last }
    ensures cause { WriteAllCause (K.faults sink.old) (K.faults sink.new) result }
{
    match session.remove(name) {
        Ok(()) => write_reply(sink, drop_reply(alloc, name), false),
        Err(NoSuchModule) => write_reply(sink, drop_refusal(alloc, name, Code::E32), true),
    }
}

// Writes how many rules the policy has.
fn tell_policy<K: Sink>(alloc: Global, policy: &Policy, sink: &mut K) -> Result<bool, WriteAll>
    requires { K.faults sink.old < 2 ^ 64 - 1 }
    ensures replied { (devices : List DeviceDecl) (state : JobState)
        → IsReplied devices state (SetPolicy policy.now) (K.written sink.old) (K.written sink.new) result }
    ensures cause { WriteAllCause (K.faults sink.old) (K.faults sink.new) result }
{
    write_reply(sink, policy_reply(alloc, policy), false)
}

// Writes what is found of the text as a certificate.
fn tell_certificate<K: Sink>(alloc: Global, text: &Text, sink: &mut K) -> Result<bool, WriteAll>
    requires { K.faults sink.old < 2 ^ 64 - 1 }
    ensures replied { (devices : List DeviceDecl) (state : JobState)
        → IsReplied devices state (VerifyText text.now) (K.written sink.old) (K.written sink.new) result }
    ensures cause { WriteAllCause (K.faults sink.old) (K.faults sink.new) result }
{
    match verify_reply(alloc, text.as_bytes()) {
        Ok((reply, refused)) => write_reply(sink, Ok(reply), refused),
        Err(AllocError) => Err(WriteAll::NoMemory),
    }
}

// Checks the modules and answers the question of the command, if it is one.
fn ask<K: Sink, L: Ledger>(
    alloc: Global,
    names: &Names,
    session: &mut Session,
    kept: &mut Kept,
    policy: &Policy,
    command: &Command,
    sink: &mut K,
    steps: &mut Steps<L>,
) -> Result<bool, WriteAll>
    requires count { K.faults sink.old < 2 ^ 64 - 1 }
    requires differ { NamesOfDevicesDiffer session.old.devices }
    requires present { ArePresent session.old.present }
    requires kept { IsKeptFor session.old.devices session.old.present kept.old }
    requires names { (names.now.names.items ≡ device_names session.old.devices) × (names.now.locals ≡ 0) }
    ensures replied { IfSome (question_in (request_of command.now))
        (λ question. IsReplied session.old.devices (holding_under policy.now session.old.present) (Ask question)
        (K.written sink.old) (K.written sink.new) result) }
    ensures changes { IfSome (question_in (request_of command.now)) (λ question. Changes session.old session.new (Ask question) result) }
    ensures judges { IfSome (question_in (request_of command.now))
        (λ question. Judges session.old session.new (Ask question) steps.old steps.new result) }
    ensures kept { IsKeptFor session.new.devices session.new.present kept.new }
    ensures cause { WriteAllCause (K.faults sink.old) (K.faults sink.new) result }
{
    match session.check(steps) {
        Ok(()) => answer_checked(alloc, names, &*session, kept, policy, command, sink),
        Err(AllocError) => Err(WriteAll::NoMemory),
    }
}

/// Carries out a command where the policy is in force, and writes the reply. It tells whether that is a refusal.
///
/// What is kept serves again as long as it is kept for the present modules.
pub fn answer<K: Sink, L: Ledger>(
    alloc: Global,
    names: &Names,
    session: &mut Session,
    kept: &mut Kept,
    policy: &Policy,
    command: &Command,
    sink: &mut K,
    steps: &mut Steps<L>,
) -> Result<bool, WriteAll>
    requires count { K.faults sink.old < 2 ^ 64 - 1 }
    requires differ { NamesOfDevicesDiffer session.old.devices }
    requires present { ArePresent session.old.present }
    requires kept { IsKeptFor session.old.devices session.old.present kept.old }
    requires names { (names.now.names.items ≡ device_names session.old.devices) × (names.now.locals ≡ 0) }
    ensures replied { IsReplied session.old.devices (holding_under policy.now session.old.present) (request_of command.now)
        (K.written sink.old) (K.written sink.new) result }
    ensures changes { Changes session.old session.new (request_of command.now) result }
    ensures judges { Judges session.old session.new (request_of command.now) steps.old steps.new result }
    ensures kept { IsKeptFor session.new.devices session.new.present kept.new }
    ensures cause { WriteAllCause (K.faults sink.old) (K.faults sink.new) result }
{
    match command {
        Command::Put(name, text) => {
            let written = put_module(alloc, session, name, text, sink);
            give_up_where_changed(alloc, kept, &written);
            written
        }
        Command::Drop(name) => {
            let written = drop_module(alloc, session, name, sink);
            give_up_where_changed(alloc, kept, &written);
            written
        }
        Command::Policy(next) => tell_policy(alloc, next, sink),
        Command::Verify(text) => tell_certificate(alloc, text, sink),
        Command::Check
        | Command::Sig(_)
        | Command::Derive(_, _)
        | Command::Run(_, _, _)
        | Command::Tasks(_, _, _)
        | Command::Audit(_, _)
        | Command::Guard(_, _, _)
        | Command::Explain(_, _)
        | Command::Replay(_, _, _, _) => ask(
            alloc, names, session, kept, policy, command, sink, steps,
        ),
    }
}

// The policy in force behind the command: the one that it sets, or else the one before.
fn policy_after<'a>(policy: &'a Policy, command: &'a Command) -> &'a Policy
    ensures { result.now ≡ rules_after policy.now (request_of command.now) }
{
    match command {
        Command::Policy(next) => next,
        _ => policy,
    }
}

// Whether one of both is so.
fn either(first: bool, second: bool) -> bool
    ensures { result ≡ (first || second) }
{
    first || second
}

// Carries out the commands in order, where the policy is in force at first. It answers whether a reply is a refusal.
fn answer_all<'a, K: Sink, L: Ledger>(
    alloc: Global,
    names: &Names,
    session: &mut Session,
    first: &'a Policy,
    commands: &'a [Command],
    sink: &mut K,
    steps: &mut Steps<L>,
) -> Result<bool, WriteAll>
    requires count { K.faults sink.old < 2 ^ 64 - 1 }
    requires differ { NamesOfDevicesDiffer session.old.devices }
    requires present { ArePresent session.old.present }
    requires names { (names.now.names.items ≡ device_names session.old.devices) × (names.now.locals ≡ 0) }
    ensures answered { AreAnswered session.old.devices (holding_under first.now session.old.present)
        session.old.last (map request_of commands.now)
        (K.written sink.old) (K.written sink.new) steps.old steps.new result }
    ensures cause { WriteAllCause (K.faults sink.old) (K.faults sink.new) result }
{
    let mut policy = first;
    let mut kept = Kept::nothing(alloc);
    let mut refused = false;
    for command in commands {
        let later = answer(
            alloc,
            names,
            &mut *session,
            &mut kept,
            policy,
            command,
            &mut *sink,
            &mut *steps,
        )?;
        policy = policy_after(policy, command);
        refused = either(refused, later);
    }
    Ok(refused)
}

/// Carries out the job, with a reply for each command. It answers whether a reply is a refusal.
///
/// The memory of the modules is not given back piece by piece: it goes back to the system with the program, which has
/// nothing more to do then.
pub fn carry_out<K: Sink, L: Ledger>(
    alloc: Global,
    job: Job,
    sink: &mut K,
    steps: &mut Steps<L>,
) -> Result<bool, WriteAll>
    requires count { K.faults sink.old < 2 ^ 64 - 1 }
    requires differ { NamesOfDevicesDiffer job.devices }
    ensures answered { AreAnswered job.devices no_module [] (requests_of job)
        (K.written sink.old) (K.written sink.new) steps.old steps.new result }
    ensures cause { WriteAllCause (K.faults sink.old) (K.faults sink.new) result }
{
    let Job { devices, commands } = job;
    let names = match names_of(alloc, devices.as_slice()) {
        Ok(names) => names,
        Err(AllocError) => return Err(WriteAll::NoMemory),
    };
    let mut session = Session::new(alloc, devices.into_vec());
    let none = Policy::new(Vec::new(alloc));
    let answer = answer_all(
        alloc,
        &names,
        &mut session,
        &none,
        commands.as_slice(),
        sink,
        steps,
    );
    forget(session);
    answer
}
