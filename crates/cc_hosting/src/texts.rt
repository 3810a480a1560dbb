//! The texts of what is answered where a definition is to be run on the devices of a host.

ghost use Rattle.std.specs.Prelude.{◌≡◌, ◌++◌, IfOk, OnOk};
ghost use Rattle.std.specs.List.{flat_map, list_any};
ghost use Rattle.std.specs.Str.{bytes_eq};
ghost use Rattle.std.specs.String.{string_bytes};
ghost use Rattle.cc_binding.specs.Binding.{is_of_present, is_of_declared, is_used, unused_rules};
ghost use Rattle.cc_hosting.specs.HostedRuns as plain;

use cc_base::code::Code;
use cc_base::name::Name;
use cc_certificate_writing::writing::{put, put_position};
use cc_policy::policy::{Policy, Rule};
use cc_print::Names;
use cc_replay::run_texts::put_authority;
use cc_session::session::Session;
use std::alloc::{AllocError, Global};

/// The reply that refuses to run the definition of the module. Fails only for want of memory.
pub fn refusal(alloc: Global, module: &Name, def: &Name, code: Code) -> Result<String, AllocError>
    ensures { IfOk result (λ text. string_bytes text ≡ plain.refusal_text «module».now def.now code) }
{
    format!(in alloc; "live {module}.{def} refused {code}\n")
}

// The front of such a reply where a linked module is beyond the rules, up to its name.
fn beyond_front(
    alloc: Global,
    module: &Name,
    def: &Name,
    owner: &Name,
) -> Result<String, AllocError>
    ensures { IfOk result (λ text. string_bytes text ≡ plain.beyond_front «module».now def.now owner.now) }
{
    format!(in alloc; "live {module}.{def} refused E38 {owner} ")
}

/// The reply that refuses to run the definition of the module since the linked module of this owner names the device of this
/// number, which it is not allowed. Devices have the names. Fails only for want of memory.
pub fn beyond_refusal(
    alloc: Global,
    names: &Names,
    module: &Name,
    def: &Name,
    owner: &Name,
    device: u32,
) -> Result<String, AllocError>
    ensures { IfOk result (λ text. string_bytes text ≡ plain.beyond_text names.now.names.items «module».now def.now (owner.now, device)) }
{
    let mut out = beyond_front(alloc, module, def, owner)?;
    put_position(alloc, &mut out, names, "_", device)?;
    put(&mut out, "\n")?;
    Ok(out)
}

// Whether what a rule says of a module is true of a present one.
fn is_of_present(session: &Session, one: &Option<Name>) -> bool
    ensures { result ≡ is_of_present session.now.present one.now }
{
    match one {
        Some(name) => session.text(name).is_ok(),
        None => true,
    }
}

// Whether one of the names is this one.
fn is_among(names: &[Name], name: &Name) -> bool
    ensures { result ≡ list_any (λ other. bytes_eq other name.now) names.now }
{
    names.iter().any(|other| *other == *name)
}

// Whether what a rule says of a device is true of one that has one of the names.
fn is_of_declared(names: &[Name], one: &Option<Name>) -> bool
    ensures { result ≡ is_of_declared names.now one.now }
{
    match one {
        Some(name) => is_among(names, name),
        None => true,
    }
}

// Whether the rule is about a module and a device that may be there.
fn is_used(session: &Session, names: &Names, rule: &Rule) -> bool
    ensures { result ≡ is_used session.now.present names.now.names.items rule.now }
{
    is_of_present(session, &rule.module) && is_of_declared(names.names.as_slice(), &rule.device)
}

// Adds the line of an unused rule of this number.
fn put_unused_line(alloc: Global, out: &mut String, number: usize) -> Result<(), AllocError>
    ensures { OnOk result (string_bytes out.new ≡ string_bytes out.old ++ plain.unused_line number) }
{
    let text = format!(in alloc; "  unused rule {number}\n")?;
    put(out, text.as_str())
}

// Adds such a line where the rule is unused.
fn put_if_unused(
    alloc: Global,
    out: &mut String,
    session: &Session,
    names: &Names,
    rule: &Rule,
    number: usize,
) -> Result<(), AllocError>
    ensures { OnOk result (string_bytes out.new ≡ string_bytes out.old ++ plain.told_if_unused session.now.present names.now.names.items rule.now number) }
{
    if is_used(session, names, rule) {
        return Ok(());
    }
    put_unused_line(alloc, out, number)
}

// Adds a line for each rule that is unused.
fn put_unused(
    alloc: Global,
    out: &mut String,
    session: &Session,
    names: &Names,
    policy: &Policy,
) -> Result<(), AllocError>
    ensures { OnOk result (string_bytes out.new ≡ string_bytes out.old ++ flat_map plain.unused_line (unused_rules session.now.present names.now.names.items policy.now)) }
{
    for (at, rule) in policy.rules().iter().enumerate() {
        put_if_unused(alloc, &mut *out, session, names, rule, at + 1)?;
    }
    Ok(())
}

/// What is told before the run of the definition of the module: the head line, the devices of this authority, and the rules
/// of the policy that are unused. Devices have the names. Fails only for want of memory.
pub fn beginning(
    alloc: Global,
    names: &Names,
    session: &Session,
    policy: &Policy,
    module: &Name,
    def: &Name,
    authority: &[u32],
) -> Result<String, AllocError>
    ensures { IfOk result (λ text. string_bytes text ≡ plain.beginning_text names.now.names.items «module».now def.now authority.now
        (unused_rules session.now.present names.now.names.items policy.now)) }
{
    let mut out = format!(in alloc; "live {module}.{def}\n")?;
    put(&mut out, "  ")?;
    put_authority(alloc, &mut out, names, authority)?;
    put(&mut out, "\n")?;
    put_unused(alloc, &mut out, session, names, policy)?;
    Ok(out)
}
