//! Which module of an entry names a device that it is not allowed. It takes no memory.

ghost use Rattle.std.specs.Prelude.{◌≡◌, ◌-◌, ◌%◌, ◌<◌, length, true, None, Some, MatchOption};
ghost use Rattle.std.specs.List.{HoldsAt};
ghost use Rattle.cc_binding.specs.Binding as plain;
ghost use Rattle.cc_binding.specs.NamedBits.{HasModuleBits};
ghost use Rattle.cc_capture.specs.Words.{has_bit};
ghost use Rattle.cc_replies.specs.PolicyReplies.{decision_for};
ghost use Rattle.cc_session.specs.Entries.{entry_of};
ghost use Rattle.cc_session.specs.Modules.{module_of};

use crate::naming::module_bits;
use cc_base::name::Name;
use cc_policy::policy::{Policy, decide};
use cc_print::Names;
use cc_session::Entry;
use cc_session::modules::EntryModule;

// Whether the policy allows the module the device of the number. What is no device is not allowed.
fn is_allowed(policy: &Policy, module: &Name, names: &Names, device: usize) -> bool
    ensures { result ≡ (decision_for names.now.names.items policy.now «module».now device).allow }
{
    match names.names.get(device) {
        Some(name) => decide(policy, module, name).allow,
        None => false,
    }
}

// Whether the word has the bit.
fn is_set(word: u64, place: usize) -> bool
    requires { place < 64 }
    ensures { result ≡ has_bit word place }
{
    (word >> place) & 1 == 1
}

// The bits of the 64 positions among which the device is, one of which is at a multiple of 64: those at hand, where it is
// not that one.
fn bits_at(word: u64, device: usize, module: &EntryModule) -> u64
    requires { 0 < device % 64 → HasModuleBits (device - device % 64) (module_of «module».now) word }
    ensures { HasModuleBits (device - device % 64) (module_of «module».now) result }
{
    if device % 64 == 0 {
        return module_bits(device, module);
    }
    word
}

// Whether the module names the device and is not allowed it.
fn is_beyond(policy: &Policy, names: &Names, word: u64, device: usize, module: &EntryModule) -> bool
    requires { HasModuleBits (device - device % 64) (module_of «module».now) word }
    ensures beyond { result ≡ plain.is_beyond names.now.names.items policy.now (module_of «module».now) device }
    ensures within { result ≡ true → device < 4294967296 }
{
    if !is_set(word, device % 64) {
        return false;
    }
    !is_allowed(policy, &module.name, names, device)
}

// The first device, of so many, that the module names and is not allowed.
fn first_device(policy: &Policy, names: &Names, count: usize, module: &EntryModule) -> Option<u32>
    ensures { result ≡ plain.first_device_beyond names.now.names.items policy.now count (module_of «module».now) }
{
    let mut word = 0;
    for device in 0..count {
        word = bits_at(word, device, module);
        if is_beyond(policy, names, word, device, module) {
            return Some(device as u32);
        }
    }
    None
}

/// The first module of the entry, in the order in which they are linked, that names a device which the policy does not
/// allow it, by its place, with the first such device; none exactly where the policy binds all modules. Devices have the
/// names. It takes no memory.
///
/// A term is gone over once for each 64 devices.
pub fn first_beyond(policy: &Policy, names: &Names, entry: &Entry) -> Option<(usize, u32)>
    ensures { MatchOption result
        (plain.first_beyond names.now.names.items policy.now (length entry.now.devices.items) (entry_of entry.now).modules ≡ None)
        (λ found. (found.0 < length entry.now.modules.items) × HoldsAt (λ current. plain.first_beyond names.now.names.items policy.now (length entry.now.devices.items) (entry_of entry.now).modules ≡ Some (current.name, found.1)) entry.now.modules.items found.0) }
{
    for (at, module) in entry.modules.iter().enumerate() {
        if let Some(device) = first_device(policy, names, entry.devices.len(), module) {
            return Some((at, device));
        }
    }
    None
}
