ghost use Rattle.std.specs.Prelude.{◌≡◌};

use cc_base::device::DeviceDecl;
use cc_base::name::Name;
use cc_base::text::Text;
use cc_policy::policy::Policy;
use std::marker::Model;

/// The declared devices of a job, in order. Contracts see their list.
#[derive(Drop)]
pub struct DeviceList {
    devices: Vec<DeviceDecl>,
}

impl Model for DeviceList {
    ghost use Rattle.std.specs.Prelude.{List};
    ghost use Rattle.cc_base.specs.declared.device.DeviceDecl.{DeviceDecl};

    ghost Value = { List DeviceDecl };

    ghost view = { λ d. d.devices.items };
}

impl DeviceList {
    /// The devices of a list, in its order.
    pub fn new(devices: Vec<DeviceDecl>) -> DeviceList
        ensures { result ≡ devices.items }
    {
        DeviceList { devices }
    }

    /// The devices, in order.
    pub fn as_slice(&self) -> &[DeviceDecl]
        ensures { result.now ≡ self.now }
    {
        self.devices.as_slice()
    }

    /// The list of the devices. It takes no memory.
    pub fn into_vec(self) -> Vec<DeviceDecl>
        ensures { result.items ≡ self }
    {
        self.devices
    }
}

/// The numbers of tasks whose turns follow each other. Contracts see their list.
#[derive(Drop)]
pub struct Schedule {
    numbers: Vec<u32>,
}

impl Model for Schedule {
    ghost use Rattle.std.specs.Prelude.{List, ℕ};

    ghost Value = { List ℕ };

    ghost view = { λ s. s.numbers.items };
}

impl Schedule {
    /// The schedule of a list, in its order.
    pub fn new(numbers: Vec<u32>) -> Schedule
        ensures { result ≡ numbers.items }
    {
        Schedule { numbers }
    }

    /// The numbers, in order.
    pub fn as_slice(&self) -> &[u32]
        ensures { result.now ≡ self.now }
    {
        self.numbers.as_slice()
    }
}

/// Definitions of modules that run together, each with its module's name before its own. Contracts see their list.
#[derive(Drop)]
pub struct EntryList {
    entries: Vec<(Name, Name)>,
}

impl Model for EntryList {
    ghost use Rattle.std.specs.Prelude.{List, ℕ};

    ghost Value = { List (List ℕ × List ℕ) };

    ghost view = { λ e. e.entries.items };
}

impl EntryList {
    /// The entries of a list, in its order.
    pub fn new(entries: Vec<(Name, Name)>) -> EntryList
        ensures { result ≡ entries.items }
    {
        EntryList { entries }
    }

    /// The entries, in order.
    pub fn as_slice(&self) -> &[(Name, Name)]
        ensures { result.now ≡ self.now }
    {
        self.entries.as_slice()
    }
}

/// What a job asks for.
#[derive(Drop)]
pub enum Command {
    /// The module gets the text.
    Put(Name, Text),
    /// The module is removed.
    Drop(Name),
    /// All modules are checked.
    Check,
    /// The signature of the module is shown.
    Sig(Name),
    /// The certificate of a module's definition is shown.
    Derive(Name, Name),
    /// A module's definition is run, for at most so many steps.
    Run(Name, Name, u32),
    /// Definitions are run together by a schedule, for at most so many steps in all.
    Tasks(u32, Schedule, EntryList),
    /// The text is judged as a certificate.
    Verify(Text),
    /// The rules are in force from here on.
    Policy(Policy),
    /// What the rules in force say of a module's definition is shown.
    Audit(Name, Name),
    /// A module's definition is run as by `Run` where the rules in force permit it.
    Guard(Name, Name, u32),
    /// Why the devices in the signature of a module's definition stand there is shown.
    Explain(Name, Name),
    /// The text is judged as the trace of a run of a module's definition, for at most so many steps.
    Replay(Name, Name, u32, Text),
}

/// The commands of a job, in order. Contracts see their list.
#[derive(Drop)]
pub struct CommandList {
    commands: Vec<Command>,
}

impl Model for CommandList {
    ghost use Rattle.std.specs.Prelude.{List};
    ghost use Rattle.cc_job.specs.declared.job.Command.{Command};

    ghost Value = { List Command };

    ghost view = { λ c. c.commands.items };
}

impl CommandList {
    /// The commands of a list, in its order.
    pub fn new(commands: Vec<Command>) -> CommandList
        ensures { result ≡ commands.items }
    {
        CommandList { commands }
    }

    /// The commands, in order.
    pub fn as_slice(&self) -> &[Command]
        ensures { result.now ≡ self.now }
    {
        self.commands.as_slice()
    }
}

/// A job: the devices that it declares, and what it asks for.
#[derive(Drop)]
pub struct Job {
    pub devices: DeviceList,
    pub commands: CommandList,
}

/// Why bytes give no `Job`.
#[derive(Clone, Copy, Debug, PartialEq, Eq)]
pub enum JobError {
    /// The bytes are no job. The line is the first such that no job begins with the lines up to it, or one more than
    /// the number of lines where there is none.
    BadJob { line: u32 },
    NoMemory,
}
