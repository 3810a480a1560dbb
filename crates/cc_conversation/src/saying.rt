//! What is said in a conversation, and answering it.

ghost use Rattle.std.specs.Prelude.{◌≡◌, ◌-◌, ◌^◌, ◌<◌, IfOk};
ghost use Rattle.cc_io.specs.Wholes.{WriteAllCause};
ghost use Rattle.cc_item_reading.specs.ItemReading.{AreDeclared};
ghost use Rattle.cc_job.specs.Jobs.{Commands};
ghost use Rattle.cc_answers.specs.Requests.{request_of};
ghost use Rattle.cc_replies.specs.Replies.{rules_after};
ghost use Rattle.cc_conversation.specs.Conversations.{behind};
ghost use Rattle.cc_conversation.specs.Turns.{IsUnderWay, IsSaid, IsExplained, IsAsideTold, moment_of, beginning_with};
ghost use Rattle.cc_item_reading.specs.declared.asides.Aside.TheVariants as asides;
ghost use Rattle.cc_live.specs.LiveEnds.{ReadsBy, WritesBy};
ghost use Rattle.std.specs.Prelude.{IsTrue};
ghost use Rattle.std.specs.Io.KnownBytes.{IsAtEnd};

use cc_answers::commands::answer;
use cc_answers::kept::Kept;
use cc_base::device::DeviceDecl;
use cc_base::name::Name;
use cc_base::steps::Steps;
use cc_hosting::hosting::host;
use cc_io::{Sink, Source, WriteAll, write_all};
use cc_item_reading::asides::Aside;
use cc_job::job::Command;
use cc_line_reading::lines::LineReader;
use cc_live::running::LiveError;
use cc_policy::policy::Policy;
use cc_print::Names;
use cc_replies::signatures::names_of;
use cc_session::session::Session;
use cc_why::tell_why;
use std::alloc::{AllocError, Global};
use std::sync::ledger::Ledger;

/// What a conversation keeps between commands: the names of the devices, the present modules, what was made of them, and the
/// rules in force.
#[derive(Drop)]
pub struct Conversation {
    pub names: Names,
    pub session: Session,
    pub kept: Kept,
    pub policy: Policy,
}

impl Conversation {
    /// A conversation in which these devices were declared, and nothing more was said. Fails only for want of memory.
    pub fn new(alloc: Global, devices: Vec<DeviceDecl>) -> Result<Conversation, AllocError>
        requires { AreDeclared devices.items }
        ensures under_way { IfOk result (λ it. IsUnderWay it) }
        ensures moment { IfOk result (λ it. moment_of it ≡ beginning_with devices.items) }
    {
        let names = names_of(alloc, devices.as_slice())?;
        Ok(Conversation {
            names,
            session: Session::new(alloc, devices),
            kept: Kept::nothing(alloc),
            policy: Policy::new(Vec::new(alloc)),
        })
    }

    // Has the rules of the command in force, where it sets some.
    fn obey(&mut self, command: Command)
        ensures policy { self.new.policy ≡ rules_after self.old.policy (request_of command) }
        ensures session { self.new.session ≡ self.old.session }
        ensures kept { self.new.kept ≡ self.old.kept }
        ensures names { self.new.names ≡ self.old.names }
    {
        if let Command::Policy(next) = command {
            self.policy = next;
        }
    }

    /// Carries out the command and writes the reply with an empty line behind it. It tells whether that is a refusal.
    ///
    /// `WriteFault`: a write failed, and the count of faults rose. `NoMemory`: memory lacked. At an error a front was written.
    pub fn say<K: Sink, L: Ledger>(
        &mut self,
        alloc: Global,
        command: Command,
        sink: &mut K,
        steps: &mut Steps<L>,
    ) -> Result<bool, WriteAll>
        requires count { K.faults sink.old < 2 ^ 64 - 1 }
        requires under_way { IsUnderWay self.old }
        ensures said { IsSaid (moment_of self.old) command (K.written sink.old) (K.written sink.new) result }
        ensures under_way { IfOk result (λ _. IsUnderWay self.new) }
        ensures moment { IfOk result (λ _. moment_of self.new ≡ behind (moment_of self.old) (Commands command)) }
        ensures devices { self.new.session.devices ≡ self.old.session.devices }
        ensures cause { WriteAllCause (K.faults sink.old) (K.faults sink.new) result }
    {
        let answered = answer(
            alloc,
            &self.names,
            &mut self.session,
            &mut self.kept,
            &self.policy,
            &command,
            &mut *sink,
            steps,
        );
        let refused = match answered {
            Ok(refused) => refused,
            Err(error) => return Err(error),
        };
        match write_all(sink, b"\n") {
            Ok(()) => {
                self.obey(command);
                Ok(refused)
            }
            Err(error) => Err(error),
        }
    }

    /// Runs the definition of the module on the devices of the host, where the rules in force permit it, and writes an empty
    /// line behind what is told. It tells whether the run was refused, or cut short.
    ///
    /// Errors are those of `host`.
    pub fn play<S: Source, K: Sink, L: Ledger>(
        &mut self,
        alloc: Global,
        module: &Name,
        def: &Name,
        fuel: u32,
        reader: &mut LineReader,
        source: &mut S,
        lines: &mut u64,
        sink: &mut K,
        steps: &mut Steps<L>,
    ) -> Result<bool, LiveError>
        requires reads { S.faults source.old < 2 ^ 64 - 1 }
        requires writes { K.faults sink.old < 2 ^ 64 - 1 }
        requires known { IsTrue reader.old.ended → IsAtEnd (S.left source.old) }
        requires under_way { IsUnderWay self.old }
        ensures told { IsAsideTold (moment_of self.old) (asides.Live «module».now def.now fuel) reader.old reader.new
            (S.left source.old) (S.left source.new) lines.old lines.new (K.written sink.old) (K.written sink.new) result }
        ensures under_way { IfOk result (λ _. IsUnderWay self.new) }
        ensures moment { IfOk result (λ _. moment_of self.new ≡ moment_of self.old) }
        ensures known { IsTrue reader.new.ended → IsAtEnd (S.left source.new) }
        ensures reads { ReadsBy (S.faults source.old) (S.faults source.new) result }
        ensures writes { WritesBy (K.faults sink.old) (K.faults sink.new) result }
    {
        let told = host(
            alloc,
            &self.names,
            &mut self.session,
            &mut self.kept,
            &self.policy,
            module,
            def,
            fuel,
            reader,
            source,
            lines,
            &mut *sink,
            steps,
        );
        let refused = match told {
            Ok(refused) => refused,
            Err(error) => return Err(error),
        };
        match write_all(sink, b"\n") {
            Ok(()) => Ok(refused),
            Err(WriteAll::WriteFault) => Err(LiveError::WriteFault),
            Err(WriteAll::NoMemory) => Err(LiveError::NoMemory),
        }
    }

    /// Tells why the module of the name is refused, and writes an empty line behind it. It tells whether the question is refused,
    /// as it is where no such module is present.
    ///
    /// `WriteFault`: a write failed, and the count of faults rose. `NoMemory`: memory lacked. At an error a front was written.
    pub fn explain<K: Sink, L: Ledger>(
        &mut self,
        alloc: Global,
        name: &Name,
        sink: &mut K,
        steps: &mut Steps<L>,
    ) -> Result<bool, WriteAll>
        requires count { K.faults sink.old < 2 ^ 64 - 1 }
        requires under_way { IsUnderWay self.old }
        ensures explained { IsExplained (moment_of self.old) name.now (K.written sink.old) (K.written sink.new) result }
        ensures under_way { IfOk result (λ _. IsUnderWay self.new) }
        ensures moment { IfOk result (λ _. moment_of self.new ≡ moment_of self.old) }
        ensures cause { WriteAllCause (K.faults sink.old) (K.faults sink.new) result }
    {
        let told = tell_why(alloc, &mut self.session, name, &mut *sink, steps);
        let refused = match told {
            Ok(refused) => refused,
            Err(error) => return Err(error),
        };
        match write_all(sink, b"\n") {
            Ok(()) => Ok(refused),
            Err(error) => Err(error),
        }
    }

    /// Answers what a job cannot say, with an empty line behind it: a live run as `play` does, and a question as `explain`
    /// does. It tells whether that was refused, or a run cut short.
    ///
    /// Errors are those of `play`; for a question there is `WriteFault` and `NoMemory` alone.
    pub fn tell<S: Source, K: Sink, L: Ledger>(
        &mut self,
        alloc: Global,
        aside: Aside,
        reader: &mut LineReader,
        source: &mut S,
        lines: &mut u64,
        sink: &mut K,
        steps: &mut Steps<L>,
    ) -> Result<bool, LiveError>
        requires reads { S.faults source.old < 2 ^ 64 - 1 }
        requires writes { K.faults sink.old < 2 ^ 64 - 1 }
        requires known { IsTrue reader.old.ended → IsAtEnd (S.left source.old) }
        requires under_way { IsUnderWay self.old }
        ensures told { IsAsideTold (moment_of self.old) aside reader.old reader.new (S.left source.old) (S.left source.new)
            lines.old lines.new (K.written sink.old) (K.written sink.new) result }
        ensures under_way { IfOk result (λ _. IsUnderWay self.new) }
        ensures moment { IfOk result (λ _. moment_of self.new ≡ moment_of self.old) }
        ensures known { IsTrue reader.new.ended → IsAtEnd (S.left source.new) }
        ensures reads { ReadsBy (S.faults source.old) (S.faults source.new) result }
        ensures writes { WritesBy (K.faults sink.old) (K.faults sink.new) result }
    {
        match aside {
            Aside::Live(module, def, fuel) => {
                self.play(
                    alloc, &module, &def, fuel, reader, source, lines, sink, steps,
                )
            }
            Aside::Why(name) => match self.explain(alloc, &name, sink, steps) {
                Ok(refused) => Ok(refused),
                Err(WriteAll::WriteFault) => Err(LiveError::WriteFault),
                Err(WriteAll::NoMemory) => Err(LiveError::NoMemory),
            },
        }
    }
}
