//! The devices of a run, and the table of what they answer.
ghost use Rattle.std.specs.Prelude.{◌≡◌, None, Some, IfOk, IsOk, IsSome, OnErr, length, map, option_map};
ghost use Rattle.cc_base.specs.declared.literal.Op.TheVariants as operations;
ghost use Rattle.cc_base.specs.Literals.{literal_of, NumberLiteral, TextLiteral};
ghost use Rattle.std.specs.Rc.{rc_str_bytes};
ghost use Rattle.std.specs.Str.{chars};
ghost use Rattle.cc_device.specs.Calls.{RepliesAs, TakesNoMemory, unit_if};
ghost use Rattle.cc_device.specs.Declarations.{declared_devices, declared_bases};
ghost use Rattle.cc_device.specs.Devices as device_table;
ghost use Rattle.cc_device.specs.DeviceViews.{state_of};

use crate::states::{DeviceState, begun, count, give_number, take_line, take_number};
use cc_base::device::DeviceDecl;
use cc_base::literal::{Lit, Op};
use std::alloc::{AllocError, Global};
use std::marker::Model;
use std::rc::RcStr;

/// The devices of a run, by their numbers. Contracts see the list of their states.
#[derive(Drop)]
pub struct Devices {
    states: Vec<DeviceState>,
}

impl Model for Devices {
    ghost use Rattle.std.specs.Prelude.{List, map};
    ghost use Rattle.cc_device.specs.Devices.{DeviceState as State};
    ghost use Rattle.cc_device.specs.DeviceViews.{state_of};

    ghost Value = { List State };

    ghost view = { λ devices. map state_of devices.states.items };
}

impl Devices {
    /// The declared devices, as they begin. Fails only for want of memory.
    pub fn new(alloc: Global, decls: &[DeviceDecl]) -> Result<Devices, AllocError>
        ensures begin { IfOk result (λ devices. devices ≡ declared_devices decls.now) }
        ensures shapes { IfOk result (λ devices. map device_table.base_of_device devices ≡ declared_bases decls.now) }
    {
        let mut states = Vec::new(alloc);
        for decl in decls {
            let state = begun(alloc, &decl.kind)?;
            states.push(state)?;
        }
        Ok(Devices { states })
    }

    /// The states of the devices.
    pub fn as_slice(&self) -> &[DeviceState]
        ensures { map state_of result.now ≡ self.now }
    {
        self.states.as_slice()
    }

    /// The console of the number takes a number as a line, and this answers whether there is one there.
    ///
    /// Fails only for want of memory, and leaves the devices as they were then.
    pub fn print(&mut self, device: u32, number: i64) -> Result<bool, AllocError>
        ensures answers { IfOk result (λ taken. RepliesAs (device_table.operate self.old device operations.Print (Some (NumberLiteral number))) (unit_if taken) self.old self.new) }
        ensures kept { OnErr result (self.new ≡ self.old) }
    {
        let place = device as usize;
        if place < self.states.len() {
            take_line(&mut self.states[place], Lit::Int(number))
        } else {
            Ok(false)
        }
    }

    /// The console of the number takes a text as a line, and this answers whether there is one there.
    ///
    /// Fails only for want of memory, and leaves the devices as they were then.
    pub fn say(&mut self, device: u32, text: RcStr) -> Result<bool, AllocError>
        ensures answers { IfOk result (λ taken. RepliesAs (device_table.operate self.old device operations.Say (Some (TextLiteral (chars (rc_str_bytes text))))) (unit_if taken) self.old self.new) }
        ensures kept { OnErr result (self.new ≡ self.old) }
    {
        let place = device as usize;
        if place < self.states.len() {
            take_line(&mut self.states[place], Lit::Str(text))
        } else {
            Ok(false)
        }
    }

    /// The next number of the file of the number, if there is one there.
    pub fn read(&mut self, device: u32) -> Option<i64>
        ensures { RepliesAs (device_table.operate self.old device operations.Read None) (option_map NumberLiteral result) self.old self.new }
    {
        let place = device as usize;
        if place < self.states.len() {
            give_number(&mut self.states[place])
        } else {
            None
        }
    }

    /// The file of the number takes a number at its end, and this answers whether there is one there.
    ///
    /// Fails only for want of memory, and leaves the devices as they were then.
    pub fn write(&mut self, device: u32, number: i64) -> Result<bool, AllocError>
        ensures answers { IfOk result (λ taken. RepliesAs (device_table.operate self.old device operations.Write (Some (NumberLiteral number))) (unit_if taken) self.old self.new) }
        ensures kept { OnErr result (self.new ≡ self.old) }
    {
        let place = device as usize;
        if place < self.states.len() {
            take_number(&mut self.states[place], number)
        } else {
            Ok(false)
        }
    }

    /// The counter of the number counts one and this gives its count, if there is one there.
    pub fn tick(&mut self, device: u32) -> Option<i64>
        ensures { RepliesAs (device_table.operate self.old device operations.Tick None) (option_map NumberLiteral result) self.old self.new }
    {
        let place = device as usize;
        if place < self.states.len() {
            count(&mut self.states[place])
        } else {
            None
        }
    }
}

// What the device of the number answers to an operation without an argument, if it has an answer.
fn operate_alone(devices: &mut Devices, device: u32, op: Op) -> Option<i64>
    ensures { RepliesAs (device_table.operate devices.old device op None) (option_map NumberLiteral result) devices.old devices.new }
{
    match op {
        Op::Read => devices.read(device),
        Op::Tick => devices.tick(device),
        _ => None,
    }
}

// Whether the device of the number takes the number by the operation.
fn take_int(devices: &mut Devices, device: u32, op: Op, number: i64) -> Result<bool, AllocError>
    ensures answers { IfOk result (λ taken. RepliesAs (device_table.operate devices.old device op (Some (NumberLiteral number))) (unit_if taken) devices.old devices.new) }
    ensures kept { OnErr result (devices.new ≡ devices.old) }
    ensures no_memory { TakesNoMemory op → IsOk result }
{
    match op {
        Op::Print => devices.print(device, number),
        Op::Write => devices.write(device, number),
        _ => Ok(false),
    }
}

// Whether the device of the number takes the text by the operation.
fn take_text(devices: &mut Devices, device: u32, op: Op, text: RcStr) -> Result<bool, AllocError>
    ensures answers { IfOk result (λ taken. RepliesAs (device_table.operate devices.old device op (Some (TextLiteral (chars (rc_str_bytes text))))) (unit_if taken) devices.old devices.new) }
    ensures kept { OnErr result (devices.new ≡ devices.old) }
    ensures no_memory { TakesNoMemory op → IsOk result }
{
    match op {
        Op::Say => devices.say(device, text),
        _ => Ok(false),
    }
}

// Whether the device of the number takes the literal by the operation.
fn take(devices: &mut Devices, device: u32, op: Op, literal: Lit) -> Result<bool, AllocError>
    ensures answers { IfOk result (λ taken. RepliesAs (device_table.operate devices.old device op (Some (literal_of literal))) (unit_if taken) devices.old devices.new) }
    ensures kept { OnErr result (devices.new ≡ devices.old) }
    ensures no_memory { TakesNoMemory op → IsOk result }
{
    match literal {
        Lit::Int(number) => take_int(devices, device, op, number),
        Lit::Str(text) => take_text(devices, device, op, text),
        _ => Ok(false),
    }
}

// Unit, or nothing.
fn unit_where(taken: bool) -> Option<Lit>
    ensures { option_map literal_of result ≡ unit_if taken }
{
    if taken { Some(Lit::Unit) } else { None }
}

// The literal of the number, if there is one.
fn number_where(number: Option<i64>) -> Option<Lit>
    ensures { option_map literal_of result ≡ option_map NumberLiteral number }
{
    match number {
        Some(number) => Some(Lit::Int(number)),
        None => None,
    }
}

/// What the device of the number answers to the operation with its argument, if it has an answer.
///
/// Fails only for want of memory, and leaves the devices as they were then. To read and to tick take none.
pub fn answer(
    devices: &mut Devices,
    device: u32,
    op: Op,
    arg: Option<Lit>,
) -> Result<Option<Lit>, AllocError>
    ensures answers { IfOk result (λ answer. RepliesAs (device_table.operate devices.old device op (option_map literal_of arg)) (option_map literal_of answer) devices.old devices.new) }
    ensures kept { OnErr result (devices.new ≡ devices.old) }
    ensures no_memory { TakesNoMemory op → IsOk result }
{
    match arg {
        None => Ok(number_where(operate_alone(devices, device, op))),
        Some(literal) => {
            let taken = take(devices, device, op, literal)?;
            Ok(unit_where(taken))
        }
    }
}

/// What the device of the number answers to the operation with its argument.
///
/// Fails only for want of memory, and leaves the devices as they were then. To read and to tick take none.
pub fn operate(
    devices: &mut Devices,
    device: u32,
    op: Op,
    arg: Option<Lit>,
) -> Result<Lit, AllocError>
    requires { IsSome (device_table.operate devices.old device op (option_map literal_of arg)) }
    ensures answers { IfOk result (λ answer. device_table.operate devices.old device op (option_map literal_of arg) ≡ Some (record { literal = literal_of answer; devices = devices.new })) }
    ensures kept { OnErr result (devices.new ≡ devices.old) }
    ensures no_memory { TakesNoMemory op → IsOk result }
{
    match answer(devices, device, op, arg)? {
        Some(literal) => Ok(literal),
        None => unreachable!(),
    }
}
