//! The session.

ghost use Rattle.std.specs.Prelude.{◌≡◌, ◌<◌, ◌≤◌, ◌+◌, ◌↔◌, ℕ, List, [], map, length, false, not, IsTrue, IsOk, IsErr, IsErrOf, IfOk, OnOk, OnErr, MatchResult, Some, None, Ok, Err};
ghost use Rattle.std.specs.BTreeMap.{insert_entry};
ghost use Rattle.std.specs.Map.{remove_entry};
ghost use Rattle.std.specs.Str.{bytes_eq};
ghost use Rattle.cc_core.specs.TermViews.{context_of};
ghost use Rattle.cc_derive.specs.Accepting.{IsAcceptedIn};
ghost use Rattle.cc_session.specs.Modules.{module_of};
ghost use Rattle.cc_base.specs.Names.{compare_names};
ghost use Rattle.cc_judge.specs.Dependencies.{AreRead};
ghost use Rattle.cc_judge.specs.Judgements.{stale_count, verdicts_of};
ghost use Rattle.cc_judge.specs.Kept.{named_verdicts};
ghost use Rattle.cc_verdicts.specs.ModuleLaws.{NamesOfDevicesDiffer};
ghost use Rattle.cc_verdicts.specs.ModuleVerdicts as judged;
ghost use Rattle.cc_verdicts.specs.PresentTexts.{text_of, others_present, longest_text, most_modules, AreVerdicts};
ghost use Rattle.cc_verdicts.specs.StandingDefinitions.{standing_in};
ghost use Rattle.cc_module.specs.Findings.{finding_of};
ghost use Rattle.cc_module.specs.Judgements.{checked_definition_of};
ghost use Rattle.cc_session.specs.EntryAnswers.{AnswersEntry};
ghost use Rattle.cc_session.specs.LinkedModules.{AreLinked};
ghost use Rattle.cc_session.specs.Sessions.{IsUpToDate, HasTexts};
ghost use Rattle.cc_session.specs.Signatures.{findings_named, signature_of, definition_in};
ghost use Rattle.cc_session.specs.StandingAnswers.{AnswersStanding};

use crate::entry::Entry;
use crate::modules::EntryModule;
use crate::present_entries::{EntryError, entry_modules, start_entry};
use crate::refusals::{NoSuchModule, PutRefused, Refused};
use crate::standing::{Standing, StandingError, standing_in};
use crate::texts::{put_text, remove_text};
use cc_base::code::Code;
use cc_base::device::DeviceDecl;
use cc_base::name::Name;
use cc_base::steps::Steps;
use cc_judge::dependencies::read_texts;
use cc_judge::findings::definition_named;
use cc_judge::grounds::SharedText;
use cc_judge::judging::judge_all;
use cc_judge::last::Last;
use cc_judge::names::{place_of_text, place_of_verdict};
use cc_judge::reading::ReadText;
use cc_module::finding::Finding;
use cc_module::judgement::{CheckedDef, ModuleVerdict};
use std::alloc::{AllocError, Global};
use std::marker::Model;
use std::sync::ledger::Ledger;

/// Modules are put and removed, checked together, and asked for what they are. Contracts see the devices, the present
/// names with their texts in order of name, whether the session is checked, and the judgements of the last check that
/// answered Ok: the names, texts, findings and verdicts, in order of name.
#[derive(Drop)]
pub struct Session {
    alloc: Global,
    devices: Vec<DeviceDecl>,
    present: Vec<(Name, SharedText)>,
    checked: bool,
    last: Last,
}

impl Model for Session {
    ghost use Rattle.std.specs.Coded.{codes};
    ghost use Rattle.cc_base.specs.contracts.code.Code as code;
    ghost use Rattle.cc_base.specs.contracts.device.DeviceDecl as device;
    ghost use Rattle.cc_base.specs.contracts.literal.Base as base;
    ghost use Rattle.cc_base.specs.contracts.literal.Op as operation;
    ghost use Rattle.cc_base.specs.contracts.literal.Operator as operator;
    ghost use Rattle.cc_base.specs.contracts.place.Place as place;
    ghost use Rattle.cc_capture.specs.contracts.set.CapSet as set;
    ghost use Rattle.cc_capture.specs.contracts.var.Var as variable;
    ghost use Rattle.cc_judge.specs.Kept.{judgements_of};
    ghost use Rattle.cc_session.specs.Codes.{judgement_code};
    ghost use Rattle.cc_session.specs.Sessions.{SessionState, IsSession};

    ghost Value = { SessionState };

    ghost coded = { Prim.hlevel (codes, device.the_row.coded, judgement_code (record { base = base.the_row.coded; operator = operator.the_row.coded; operation = operation.the_row.coded; variable = variable.the_row.coded; set = set.the_row.coded; code = code.the_row.coded; place = place.the_row.coded })) };

    ghost view = { λ s. record { devices = s.devices.items; present = s.present.items; checked = s.checked; last = judgements_of s.last } };

    ghost invariant = { λ s. IsSession (record { devices = s.devices.items; present = s.present.items; checked = s.checked; last = judgements_of s.last }) s.last };
}

impl Session {
    /// No modules beside the devices, whose names differ. It is not checked. It takes no memory.
    pub fn new(alloc: Global, devices: Vec<DeviceDecl>) -> Session
        requires { NamesOfDevicesDiffer devices.items }
        ensures devices { result.devices ≡ devices.items }
        ensures present { result.present ≡ [] }
        ensures checked { result.checked ≡ false }
        ensures last { result.last ≡ [] }
    {
        Session {
            alloc,
            devices,
            present: Vec::new(alloc),
            checked: false,
            last: Last::new(alloc),
        }
    }

    /// Puts the text in as the module of the name, in the place of one of that name. The session is not checked then.
    ///
    /// Refused with `TooLong` exactly where the text has more than 65,536 bytes, and else with `TooMany` exactly where
    /// 256 modules of other names are present. A refused call, and one that finds no memory, leaves the session as it
    /// was.
    pub fn put(&mut self, name: Name, text: Vec<u8>) -> Result<(), PutRefused>
        ensures ok { OnOk result (HasTexts self.old (insert_entry compare_names self.old.present name text.items) self.new) }
        ensures err { OnErr result (self.new ≡ self.old) }
        ensures too_long { IsErrOf result PutRefused.TooLong ↔ (longest_text < length text.items) }
        ensures too_many { IsErrOf result PutRefused.TooMany ↔ ((length text.items ≤ longest_text) × (most_modules ≤ others_present name self.old.present)) }
    {
        match put_text(self.alloc, &mut self.present, name, text) {
            Ok(()) => {
                self.checked = false;
                Ok(())
            }
            Err(refused) => Err(refused),
        }
    }

    /// Removes the module. The session is not checked then. It takes no memory.
    ///
    /// Refused exactly where the module is not present, and leaves the session as it was then.
    pub fn remove(&mut self, name: &Name) -> Result<(), NoSuchModule>
        ensures ok { OnOk result (HasTexts self.old (remove_entry (bytes_eq name.now) self.old.present) self.new) }
        ensures err { OnErr result (self.new ≡ self.old) }
        ensures absent { IsErr result ↔ (text_of self.old.present name.now ≡ None) }
    {
        match remove_text(&mut self.present, name) {
            Ok(()) => {
                self.checked = false;
                Ok(())
            }
            Err(absent) => Err(absent),
        }
    }

    /// The devices, in order. It takes no memory.
    pub fn devices(&self) -> &[DeviceDecl]
        ensures { result.now ≡ self.now.devices }
    {
        self.devices.as_slice()
    }

    /// The present text of the module. It takes no memory.
    ///
    /// Refused exactly where the module is not present.
    pub fn text(&self, name: &Name) -> Result<&[u8], NoSuchModule>
        ensures { MatchResult result (λ text. text_of self.now.present name.now ≡ Some text.now) (λ _. text_of self.now.present name.now ≡ None) }
    {
        match place_of_text(self.present.as_slice(), name) {
            Some(at) => Ok(self.present[at].1.as_bytes()),
            None => Err(NoSuchModule),
        }
    }

    /// Checks the present modules. Afterwards the verdicts are those of the present texts, and the session is checked.
    ///
    /// `check_module` is called at most once for each stale module, and for no other. A check of a checked session takes
    /// no memory and answers Ok. Fails only for want of memory: then the texts and what is known from the last check are
    /// as before, and the session is not checked.
    pub fn check<L: Ledger>(&mut self, steps: &mut Steps<L>) -> Result<(), AllocError>
        ensures texts { (self.new.devices ≡ self.old.devices) × (self.new.present ≡ self.old.present) }
        ensures ok { OnOk result (IsTrue self.new.checked × IsUpToDate self.new) }
        ensures err { OnErr result (IsTrue (not self.new.checked) × (self.new.last ≡ self.old.last)) }
        ensures again { IsTrue self.old.checked → IsOk result × (self.new ≡ self.old) × (steps.new ≡ steps.old) }
        ensures ticks { (verdicts : List ℕ → judged.ModuleVerdict) → AreVerdicts self.old.devices self.old.present verdicts → steps.new ≤ steps.old + stale_count self.old.last self.old.present verdicts }
    {
        if self.checked {
            return Ok(());
        }
        judge_all(
            self.alloc,
            self.devices.as_slice(),
            self.present.as_slice(),
            &mut self.last,
            steps,
        )?;
        self.checked = true;
        Ok(())
    }

    /// The present modules with their verdicts, in order of name. It takes no memory.
    pub fn verdicts(&self) -> &[(Name, ModuleVerdict)]
        requires { IsTrue self.now.checked }
        ensures current { IsUpToDate self.now }
        ensures answer { named_verdicts result.now ≡ verdicts_of self.now.last }
    {
        self.last.verdicts.as_slice()
    }

    /// The present modules with their texts, in order of name. It takes no memory.
    pub fn present(&self) -> &[(Name, SharedText)]
        ensures { result.now ≡ self.now.present }
    {
        self.present.as_slice()
    }

    /// The present texts as they were read, in order of name: what was judged last is not read again.
    ///
    /// Fails only for want of memory.
    pub fn readings(&self) -> Result<Vec<ReadText>, AllocError>
        ensures { IfOk result (λ readings. AreRead self.now.present readings.items) }
    {
        read_texts(self.alloc, self.present.as_slice(), &self.last)
    }

    /// What was found for the imports of the module. It takes no memory.
    ///
    /// Refused exactly where the module is not present.
    pub fn findings(&self, name: &Name) -> Result<&[Finding], NoSuchModule>
        requires { IsTrue self.now.checked }
        ensures current { IsUpToDate self.now }
        ensures answer { MatchResult result (λ found. findings_named name.now self.now.last ≡ Some (map finding_of found.now)) (λ _. findings_named name.now self.now.last ≡ None) }
    {
        match place_of_verdict(self.last.verdicts.as_slice(), name) {
            Some(at) => Ok(self.last.grounds[at].findings.as_slice()),
            None => Err(NoSuchModule),
        }
    }

    /// The definitions of the module. It takes no memory.
    ///
    /// Refused with `E32` exactly where the module is not present, and else with `E34` exactly where it is not accepted.
    pub fn sig(&self, name: &Name) -> Result<&[CheckedDef], Refused>
        requires { IsTrue self.now.checked }
        ensures current { IsUpToDate self.now }
        ensures answer { MatchResult result (λ defs. signature_of self.now.last name.now ≡ Ok (map checked_definition_of defs.now)) (λ refused. signature_of self.now.last name.now ≡ Err refused.code) }
    {
        match place_of_verdict(self.last.verdicts.as_slice(), name) {
            Some(at) => match self.last.verdicts[at].1.defs() {
                Ok(defs) => Ok(defs),
                Err(_) => Err(Refused { code: Code::E34 }),
            },
            None => Err(Refused { code: Code::E32 }),
        }
    }

    /// The definition of the module. It takes no memory.
    ///
    /// Refused as `sig` is, and else with `E33` exactly where the module has no definition of the name.
    pub fn definition(&self, module: &Name, def: &Name) -> Result<&CheckedDef, Refused>
        requires { IsTrue self.now.checked }
        ensures current { IsUpToDate self.now }
        ensures answer { MatchResult result (λ found. definition_in self.now.last «module».now def.now ≡ Ok (checked_definition_of found.now)) (λ refused. definition_in self.now.last «module».now def.now ≡ Err refused.code) }
    {
        match self.sig(module) {
            Ok(defs) => match definition_named(defs, def) {
                Some(found) => Ok(found),
                None => Err(Refused { code: Code::E33 }),
            },
            Err(refused) => Err(refused),
        }
    }

    /// The definition of the module where it stands: with the context of its right side, and the names of that.
    ///
    /// Refused as `definition` is. Fails besides only for want of memory, and only where it is not refused.
    pub fn standing(&self, module: &Name, def: &Name) -> Result<Standing<'_>, StandingError>
        requires { IsTrue self.now.checked }
        ensures answer { (all : List ℕ → judged.ModuleVerdict) → AreVerdicts self.now.devices self.now.present all → AnswersStanding self.now.devices (standing_in self.now.present all «module».now def.now) result }
        ensures accepted { IfOk result (λ answer. IsAcceptedIn (context_of answer.ctx) answer.def.now.checked) }
    {
        standing_in(self.alloc, self.devices.as_slice(), &self.last, module, def)
    }

    /// What the definitions of the module are linked from: the module and all that it reaches, in the order in which they
    /// are linked. A module that is not accepted has no definitions.
    ///
    /// Fails only for want of memory.
    pub fn linked(&self, module: &Name) -> Result<Vec<EntryModule>, AllocError>
        requires { IsTrue self.now.checked }
        ensures { IfOk result (λ modules. AreLinked self.now.devices self.now.present «module».now (map module_of modules.items)) }
    {
        entry_modules(
            self.alloc,
            self.present.as_slice(),
            &self.last,
            self.last.verdicts.as_slice(),
            module,
        )
    }

    /// The entry of the definition of the module: what its program is linked from, and the devices that it may operate.
    ///
    /// Refused as `definition` is, and else with `E35` exactly where the definition is no function that takes a unit.
    /// Fails besides only for want of memory, and only where it is not refused.
    pub fn entry(&self, module: &Name, def: &Name) -> Result<Entry, EntryError>
        requires { IsTrue self.now.checked }
        ensures { AnswersEntry self.now.devices self.now.present «module».now def.now result }
    {
        match self.definition(module, def) {
            Ok(found) => start_entry(
                self.alloc,
                self.devices.as_slice(),
                self.present.as_slice(),
                &self.last,
                self.last.verdicts.as_slice(),
                module,
                def,
                found,
            ),
            Err(refused) => Err(EntryError::Refused(refused)),
        }
    }
}
