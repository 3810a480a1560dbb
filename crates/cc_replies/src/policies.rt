//! Replies to commands that set a policy, and that audit and guard definitions by it.

ghost use Rattle.std.specs.Prelude.{◌≡◌, ◌++◌, [], length, IfOk, OnOk};
ghost use Rattle.std.specs.String.{string_bytes};
ghost use Rattle.cc_replies.specs.PolicyReplies as plain;
ghost use Rattle.cc_replies.specs.ReplyTexts.{PolicySet, Audited, AuditRefused, GuardRefused, decision_text, decision_line, reply_text};

use cc_base::code::Code;
use cc_base::name::Name;
use cc_certificate_writing::writing::{put, put_position};
use cc_policy::policy::{Decision, Policy, decide};
use cc_print::Names;
use std::alloc::{AllocError, Global};

/// The reply to a command that sets the policy: how many rules it has. Fails only for want of memory.
pub fn policy_reply(alloc: Global, policy: &Policy) -> Result<String, AllocError>
    ensures { IfOk result (λ text. string_bytes text ≡ reply_text [] (PolicySet (length policy.now))) }
{
    let count = policy.len();
    format!(in alloc; "policy {count}\n")
}

// What the policy decides for the module and the device of the number. What is no device is denied.
fn decision_for(policy: &Policy, module: &Name, names: &Names, device: u32) -> Decision
    ensures { result ≡ plain.decision_for names.now.names.items policy.now «module».now device }
{
    match names.names.get(device as usize) {
        Some(name) => decide(policy, module, name),
        None => Decision {
            allow: false,
            rule: None,
        },
    }
}

/// Whether the policy allows the module each of the devices, which have the names. It takes no memory.
pub fn are_allowed(policy: &Policy, module: &Name, names: &Names, devices: &[u32]) -> bool
    ensures { result ≡ plain.are_allowed names.now.names.items policy.now «module».now devices.now }
{
    devices.iter().all(|device| decision_for(policy, module, names, *device).allow)
}

// Adds what is decided.
fn put_decision(alloc: Global, out: &mut String, decision: Decision) -> Result<(), AllocError>
    ensures { OnOk result (string_bytes out.new ≡ string_bytes out.old ++ decision_text decision) }
{
    put(out, if decision.allow { "allow " } else { "deny " })?;
    match decision.rule {
        Some(number) => {
            let text = format!(in alloc; "{number}")?;
            put(out, text.as_str())
        }
        None => put(out, "none"),
    }
}

// Adds the line of a device.
fn put_decision_line(
    alloc: Global,
    out: &mut String,
    names: &Names,
    policy: &Policy,
    module: &Name,
    device: u32,
) -> Result<(), AllocError>
    ensures { OnOk result (string_bytes out.new ≡ string_bytes out.old ++ decision_line names.now.names.items (device, plain.decision_for names.now.names.items policy.now «module».now device)) }
{
    put(out, "  ")?;
    put_position(alloc, out, names, "_", device)?;
    put(out, " ")?;
    put_decision(alloc, out, decision_for(policy, module, names, device))?;
    put(out, "\n")
}

/// The reply to a command that audits the definition of a module, whose run may operate the devices of this authority: a
/// line for each, with what the policy decides for the module of this owner. Devices have their names.
///
/// Fails only for want of memory.
pub fn audit_reply(
    alloc: Global,
    module: &Name,
    def: &Name,
    owner: &Name,
    authority: &[u32],
    policy: &Policy,
    names: &Names,
) -> Result<String, AllocError>
    ensures { IfOk result (λ text. string_bytes text ≡ reply_text names.now.names.items (Audited «module».now def.now (plain.decisions names.now.names.items policy.now owner.now authority.now))) }
{
    let mut out = format!(in alloc; "audit {module}.{def}\n")?;
    for device in authority {
        put_decision_line(alloc, &mut out, names, policy, owner, *device)?;
    }
    Ok(out)
}

/// The reply to such a command that is refused with the code. Fails only for want of memory.
pub fn audit_refusal(
    alloc: Global,
    module: &Name,
    def: &Name,
    code: Code,
) -> Result<String, AllocError>
    ensures { IfOk result (λ text. string_bytes text ≡ reply_text [] (AuditRefused «module».now def.now code)) }
{
    format!(in alloc; "audit {module}.{def} refused {code}\n")
}

/// The reply to a command that would run the definition of a module if that were permitted, where it is refused with the
/// code. Fails only for want of memory.
pub fn guard_refusal(
    alloc: Global,
    module: &Name,
    def: &Name,
    code: Code,
) -> Result<String, AllocError>
    ensures { IfOk result (λ text. string_bytes text ≡ reply_text [] (GuardRefused «module».now def.now code)) }
{
    format!(in alloc; "guard {module}.{def} refused {code}\n")
}
