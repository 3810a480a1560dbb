//! What was said so far of a submission.

ghost use Rattle.std.specs.Prelude.{◌≡◌, ◌==◌, ◌++◌, ◌∷◌, [], length, OnOk};
ghost use Rattle.std.specs.List.{IsDistinct};
ghost use Rattle.std.specs.Str.{bytes_eq};
ghost use Rattle.cc_job.specs.Reading.{has_device};
ghost use Rattle.cc_vouching.specs.Submissions.{Declares};
ghost use Rattle.cc_submission_reading.specs.HeadReading.{may_stand, is_that};
ghost use Rattle.cc_submission_reading.specs.Submitting.{nothing_yet, behind_item};

use crate::heads::ItemHead;
use cc_base::device::DeviceDecl;
use cc_base::name::Name;
use cc_names::Names;
use std::alloc::{AllocError, Global};
use std::marker::Model;
use std::mem::replace;

/// The devices that were declared, and the names of the modules that came. Contracts see both lists.
#[derive(Drop)]
pub struct Submitted {
    devices: Vec<DeviceDecl>,
    modules: Names,
    last: Option<Name>,
}

impl Model for Submitted {
    ghost use Rattle.std.specs.Prelude.{◌≡◌};
    ghost use Rattle.cc_submission_reading.specs.Submitting.{SoFar, last_of};

    ghost Value = { SoFar };

    ghost view = { λ s. record { devices = s.devices.items; modules = s.modules } };

    ghost invariant = { λ s. s.last ≡ last_of s.modules };
}

// Whether a device has the name.
fn has_device(devices: &[DeviceDecl], device: &DeviceDecl) -> bool
    ensures { result ≡ has_device devices.now device.now }
{
    devices.iter().any(|other| device.name == other.name)
}

// Whether it is this name.
fn is_that(last: &Option<Name>, name: &Name) -> bool
    ensures { result ≡ is_that last.now name.now }
{
    match last {
        Some(other) => other == name,
        None => false,
    }
}

impl Submitted {
    /// Nothing was said yet.
    pub fn new(alloc: Global) -> Submitted
        ensures { result ≡ nothing_yet }
    {
        Submitted {
            devices: Vec::new(alloc),
            modules: Names::new(alloc),
            last: None,
        }
    }

    /// The devices, in order.
    pub fn devices(&self) -> &[DeviceDecl]
        ensures { result.now ≡ self.now.devices }
    {
        self.devices.as_slice()
    }

    // Whether no module came.
    fn is_without_modules(&self) -> bool
        ensures { result ≡ (length self.now.modules == 0) }
    {
        self.last.is_none()
    }

    // Whether the device may be declared.
    fn admits(&self, device: &DeviceDecl) -> bool
        ensures { result ≡ may_stand self.now (ItemHead.Device device.now) }
    {
        self.is_without_modules() && self.devices.len() < 16 && !has_device(&self.devices, device)
    }

    /// Whether what the line says may be said: where it declares a device, there is no module yet, there are less than 16
    /// devices, and none has its name; where a module comes, none has its name; and where it is a claim, it is one of the
    /// last module.
    pub fn may_stand(&self, head: &ItemHead) -> bool
        ensures { result ≡ may_stand self.now head.now }
    {
        match head {
            ItemHead::Device(device) => self.admits(device),
            ItemHead::Module(name, _) => !self.modules.contains(name),
            ItemHead::Claim(owner, _, _) => is_that(&self.last, owner),
        }
    }

    /// Puts the device last. Fails only for want of memory, and then nothing has changed.
    pub fn declare(&mut self, device: DeviceDecl) -> Result<(), AllocError>
        ensures { OnOk result (self.new ≡ behind_item self.old (Declares device)) }
    {
        match self.devices.push(device) {
            Ok(()) => Ok(()),
            Err(_) => Err(AllocError),
        }
    }

    /// Puts the name of a module last. Fails only for want of memory, and then all that was said so far is forgotten.
    pub fn present(&mut self, alloc: Global, name: &Name) -> Result<(), AllocError>
        requires { IsDistinct bytes_eq (self.old.modules ++ name.now ∷ []) }
        ensures { OnOk result (self.new ≡ record { devices = self.old.devices; modules = self.old.modules ++ name.now ∷ [] }) }
    {
        let last = name.clone()?;
        let mut modules = replace(&mut self.modules, Names::new(alloc));
        self.last = None;
        modules.add(name)?;
        self.modules = modules;
        self.last = Some(last);
        Ok(())
    }
}
