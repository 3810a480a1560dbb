//! The job of a workload: a chain of modules that is checked, changed, checked again and run.

ghost use Rattle.std.specs.Prelude.{◌≡◌, ◌-◌, ◌≤◌, ◌<◌, ◌++◌, ◌∷◌, [], IfOk, OnOk, codes};
ghost use Rattle.std.specs.Str.{chars};
ghost use Rattle.std.specs.String.{string_bytes};
ghost use Rattle.std.specs.Fmt.{decimal};
ghost use Rattle.cc_base.specs.Names.{IsName};
ghost use Rattle.cc_workload.specs.Workloads as plain;
ghost use Rattle.cc_job.specs.declared.job.Command.TheVariants as command;

use cc_base::device::{DeviceDecl, Kind};
use cc_base::name::{Name, NameError};
use cc_base::text::Text;
use cc_job::job::{Command, CommandList, DeviceList, Job};
use std::alloc::{AllocError, Global};

// The name that a text is which is known to be one.
fn known_name(alloc: Global, text: &str) -> Result<Name, AllocError>
    requires { IsName (chars text.now) }
    ensures { IfOk result (λ name. name ≡ chars text.now) }
{
    match Name::read(alloc, text) {
        Ok(name) => Ok(name),
        Err(NameError::NoMemory) => Err(AllocError),
        Err(NameError::NotAName) => unreachable!(),
    }
}

// The name of the module with this number.
#[tactic(auto, using(crate::proofs::WorkloadNames::text_named, crate::proofs::WorkloadNames::module_text))]
fn module_name(alloc: Global, number: u32) -> Result<Name, AllocError>
    ensures { IfOk result (λ name. name ≡ plain.module_name number) }
{
    let text = format!(in alloc; "m{number}")?;
    known_name(alloc, text.as_str())
}

// Adds a text and a number behind it.
fn add_numbered(alloc: Global, out: &mut String, text: &str, number: u32) -> Result<(), AllocError>
    ensures { OnOk result (string_bytes out.new ≡ string_bytes out.old ++ (text.now ++ decimal number)) }
{
    let added = format!(in alloc; "{text}{number}")?;
    out.push_str(added.as_str())
}

// The text of a module behind the first.
fn calling_module(alloc: Global, number: u32) -> Result<String, AllocError>
    requires { 1 ≤ number }
    ensures { IfOk result (λ text. string_bytes text ≡ plain.calling_module number) }
{
    let before = number - 1;
    let mut out = String::from_str(alloc, "")?;
    add_numbered(alloc, &mut out, "import m", before)?;
    add_numbered(alloc, &mut out, ".f", before)?;
    add_numbered(alloc, &mut out, "\ndef f", number)?;
    add_numbered(alloc, &mut out, " = fun (x: Int) => f", before)?;
    add_numbered(alloc, &mut out, "(x + ", number)?;
    out.push_str(")\n")?;
    Ok(out)
}

// The text of the module that is run.
fn entry_module(alloc: Global, last: u32) -> Result<String, AllocError>
    ensures { IfOk result (λ text. string_bytes text ≡ plain.entry_module last) }
{
    let mut out = String::from_str(alloc, "")?;
    add_numbered(alloc, &mut out, "import m", last)?;
    add_numbered(alloc, &mut out, ".f", last)?;
    add_numbered(alloc, &mut out, "\ndef main = fun (u: Unit) => f", last)?;
    out.push_str("(0)\n")?;
    Ok(out)
}

// The put of a module behind the first.
fn calling_put(alloc: Global, number: u32) -> Result<Command, AllocError>
    requires { 1 ≤ number }
    ensures { IfOk result (λ put. put ≡ plain.link number) }
{
    let name = module_name(alloc, number)?;
    let text = calling_module(alloc, number)?;
    Ok(Command::Put(name, Text::new(text.into_bytes())))
}

// The put of a module whose text is given.
fn given_put(alloc: Global, name: &str, text: &str) -> Result<Command, AllocError>
    requires { IsName (chars name.now) }
    ensures { IfOk result (λ put. put ≡ command.Put (chars name.now) text.now) }
{
    let name = known_name(alloc, name)?;
    let text = String::from_str(alloc, text)?;
    Ok(Command::Put(name, Text::new(text.into_bytes())))
}

// The devices.
#[tactic(auto, using(crate::proofs::WorkloadNames::out_named, crate::proofs::WorkloadNames::hits_named, crate::proofs::WorkloadNames::out_text, crate::proofs::WorkloadNames::hits_text))]
fn workload_devices(alloc: Global) -> Result<Vec<DeviceDecl>, AllocError>
    ensures { IfOk result (λ devices. devices.items ≡ plain.workload_devices) }
{
    let out = known_name(alloc, "out")?;
    let hits = known_name(alloc, "hits")?;
    let mut devices = Vec::new(alloc);
    devices.push(DeviceDecl {
        name: out,
        kind: Kind::Console,
    })?;
    devices.push(DeviceDecl {
        name: hits,
        kind: Kind::Counter,
    })?;
    Ok(devices)
}

// The puts of the chain.
#[tactic(auto, using(crate::proofs::WorkloadNames::first_named, crate::proofs::WorkloadNames::first_text, crate::proofs::WorkloadNames::chain_next, crate::proofs::WorkloadNames::chain_end))]
fn chain(alloc: Global, count: u32) -> Result<Vec<Command>, AllocError>
    requires { (1 ≤ count) × (count ≤ 200) }
    ensures { IfOk result (λ commands. commands.items ≡ plain.chain count) }
{
    let mut commands = Vec::new(alloc);
    let first = given_put(alloc, "m1", "def f1 = fun (x: Int) => out.print(x)\n")?;
    commands.push(first)?;
    for number in 2..count + 1 {
        let put = calling_put(alloc, number)?;
        commands.push(put)?;
    }
    Ok(commands)
}

// The put of the module that is run.
#[tactic(auto, using(crate::proofs::WorkloadNames::app_named, crate::proofs::WorkloadNames::app_text))]
fn entry_put(alloc: Global, last: u32) -> Result<Command, AllocError>
    ensures { IfOk result (λ put. put ≡ command.Put (codes "app") (plain.entry_module last)) }
{
    let app = known_name(alloc, "app")?;
    let text = entry_module(alloc, last)?;
    Ok(Command::Put(app, Text::new(text.into_bytes())))
}

// The put of the first module as it has changed.
#[tactic(auto, using(crate::proofs::WorkloadNames::first_named, crate::proofs::WorkloadNames::first_text))]
fn change_put(alloc: Global) -> Result<Command, AllocError>
    ensures { IfOk result (λ put. put ≡ command.Put (plain.module_name 1) plain.counting_module) }
{
    given_put(
        alloc,
        "m1",
        "def f1 = fun (x: Int) => val n = hits.tick(); out.print(x)\n",
    )
}

// The run.
#[tactic(auto, using(crate::proofs::WorkloadNames::app_named, crate::proofs::WorkloadNames::main_named, crate::proofs::WorkloadNames::app_text, crate::proofs::WorkloadNames::main_text))]
fn entry_run(alloc: Global) -> Result<Command, AllocError>
    ensures { IfOk result (λ run. run ≡ command.Run (codes "app") (codes "main") 1000000) }
{
    let app = known_name(alloc, "app")?;
    let main = known_name(alloc, "main")?;
    Ok(Command::Run(app, main, 1_000_000))
}

// Adds a put and a check of all behind it.
fn add_checked(commands: &mut Vec<Command>, put: Command) -> Result<(), AllocError>
    ensures { OnOk result (commands.new.items ≡ commands.old.items ++ put ∷ command.Check ∷ []) }
{
    commands.push(put)?;
    commands.push(Command::Check)?;
    Ok(())
}

// Adds the two puts, each with a check behind it, and the run.
fn add_requests(
    commands: &mut Vec<Command>,
    entry: Command,
    change: Command,
    run: Command,
) -> Result<(), AllocError>
    ensures { OnOk result (commands.new.items ≡ commands.old.items ++ entry ∷ command.Check ∷ change ∷ command.Check ∷ run ∷ []) }
{
    add_checked(commands, entry)?;
    add_checked(commands, change)?;
    commands.push(run)?;
    Ok(())
}

/// The job of a workload of so many modules. Fails only for want of memory.
pub fn workload(alloc: Global, count: u32) -> Result<Job, AllocError>
    requires { (1 ≤ count) × (count ≤ 200) }
    ensures { IfOk result (λ job. job ≡ plain.workload count) }
{
    let devices = workload_devices(alloc)?;
    let entry = entry_put(alloc, count)?;
    let change = change_put(alloc)?;
    let run = entry_run(alloc)?;
    let mut commands = chain(alloc, count)?;
    add_requests(&mut commands, entry, change, run)?;
    Ok(Job {
        devices: DeviceList::new(devices),
        commands: CommandList::new(commands),
    })
}
