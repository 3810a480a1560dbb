//! The state of one device, and what each operation does to it.
//!
//! A call answers nothing, or `false`, where the device table has no answer; the device is then as before.
ghost use Rattle.std.specs.Prelude.{◌≡◌, None, Some, IfOk, OnErr, option_map};
ghost use Rattle.cc_base.specs.Literals.{literal_of, UnitLiteral, NumberLiteral, TextLiteral};
ghost use Rattle.cc_device.specs.Calls.{AnswersAs, unit_if};
ghost use Rattle.cc_device.specs.Declarations.{declared_state};
ghost use Rattle.cc_device.specs.Devices.{append_line, read_number, write_number, tick_count};
ghost use Rattle.cc_device.specs.DeviceViews.{state_of};

use cc_base::device::Kind;
use cc_base::literal::Lit;
use std::alloc::{AllocError, Global};

/// What a device is at a moment.
#[derive(Drop)]
pub enum DeviceState {
    /// A console with its lines.
    Console(Vec<Lit>),
    /// A file with its numbers, and the place of the next one to read.
    File(Vec<i64>, u64),
    /// A counter with its count.
    Counter(i64),
}

/// The state that a device of the kind begins with. Fails only for want of memory.
pub(crate) fn begun(alloc: Global, kind: &Kind) -> Result<DeviceState, AllocError>
    ensures { IfOk result (λ state. state_of state ≡ declared_state kind.now) }
{
    match kind {
        Kind::Console => Ok(DeviceState::Console(Vec::new(alloc))),
        Kind::File(numbers) => {
            let numbers = Vec::from_slice(alloc, numbers.as_slice())?;
            Ok(DeviceState::File(numbers, 0))
        }
        Kind::Counter => Ok(DeviceState::Counter(0)),
    }
}

/// A console takes the line, and answers whether it is one. Fails only for want of memory.
pub(crate) fn take_line(state: &mut DeviceState, line: Lit) -> Result<bool, AllocError>
    ensures answers { IfOk result (λ taken. AnswersAs (append_line (state_of state.old) (literal_of line)) (unit_if taken) (state_of state.old) (state_of state.new)) }
    ensures kept { OnErr result (state_of state.new ≡ state_of state.old) }
{
    match state {
        DeviceState::Console(lines) => {
            lines.push(line)?;
            Ok(true)
        }
        _ => Ok(false),
    }
}

/// A file takes the number at its end, and answers whether it is one. Fails only for want of memory.
pub(crate) fn take_number(state: &mut DeviceState, number: i64) -> Result<bool, AllocError>
    ensures answers { IfOk result (λ taken. AnswersAs (write_number (state_of state.old) (Some (NumberLiteral number))) (unit_if taken) (state_of state.old) (state_of state.new)) }
    ensures kept { OnErr result (state_of state.new ≡ state_of state.old) }
{
    match state {
        DeviceState::File(numbers, _) => {
            numbers.push(number)?;
            Ok(true)
        }
        _ => Ok(false),
    }
}

/// A file gives its next number, and 0 at its end.
pub(crate) fn give_number(state: &mut DeviceState) -> Option<i64>
    ensures { AnswersAs (read_number (state_of state.old) None) (option_map NumberLiteral result) (state_of state.old) (state_of state.new) }
{
    match state {
        DeviceState::File(numbers, place) => {
            let at = *place as usize;
            if at < numbers.len() {
                let number = numbers[at];
                *place += 1;
                Some(number)
            } else {
                Some(0)
            }
        }
        _ => None,
    }
}

/// A counter counts one, and gives its count.
pub(crate) fn count(state: &mut DeviceState) -> Option<i64>
    ensures { AnswersAs (tick_count (state_of state.old) None) (option_map NumberLiteral result) (state_of state.old) (state_of state.new) }
{
    match state {
        DeviceState::Counter(number) => {
            *number = number.wrapping_add(1);
            Some(*number)
        }
        _ => None,
    }
}
