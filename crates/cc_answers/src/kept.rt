//! What was made of the present modules last: entries with their programs, and explanations. It serves again as long as the
//! present modules stay.

ghost use Rattle.std.specs.Prelude.{◌≡◌, ◌&&◌, List, IfOk, IfSome, IsTrue, MatchResult, Err};
ghost use Rattle.std.specs.Str.{bytes_eq};
ghost use Rattle.cc_base.specs.declared.device.DeviceDecl.{DeviceDecl};
ghost use Rattle.cc_capture.specs.Sets.{same_set};
ghost use Rattle.cc_session.specs.EntryAnswers.{AnswersEntry};
ghost use Rattle.cc_verdicts.specs.PresentTexts.{Texts};
ghost use Rattle.cc_answers.specs.KeptEntries as plain;
ghost use Rattle.cc_answers.specs.KeptEntries.{IsExplainedFor, IsKeptFor, IsLinkedFor, StayWhereRefused};

use crate::explaining::narrow;
use crate::explanation::{Explained, explain};
use crate::linked::{LinkedEntry, linked};
use crate::made::{Made, keep, make_room};
use cc_base::name::Name;
use cc_capture::CapSet;
use cc_io::WriteAll;
use cc_session::modules::EntryModule;
use cc_session::present_entries::EntryError;
use cc_session::refusals::NoSuchModule;
use cc_session::session::Session;
use std::alloc::{AllocError, Global};
use std::rc::Rc;

/// The entries with their programs that were made last, and the explanations, the newest last of each.
#[derive(Drop)]
pub struct Kept {
    pub linked: Vec<Made<Rc<LinkedEntry>>>,
    pub explained: Vec<Made<Rc<Explained>>>,
}

// Whether the entry is that of the definition.
fn is_entry_of(it: &LinkedEntry, module: &Name, def: &Name) -> bool
    ensures { result ≡ (bytes_eq it.now.entry.module «module».now && bytes_eq it.now.entry.def def.now) }
{
    it.entry.module == *module && it.entry.def == *def
}

// Whether the definition and the set are those that are explained.
fn is_explanation_of(it: &Explained, module: &Name, def: &Name, set: &CapSet) -> bool
    ensures { result ≡ ((bytes_eq it.now.module «module».now && bytes_eq it.now.def def.now) && same_set it.now.set set.now) }
{
    it.module == *module && it.def == *def && it.set == *set
}

impl Kept {
    /// Nothing is kept. It takes no memory.
    pub fn nothing(alloc: Global) -> Kept
        ensures { (devices : List DeviceDecl) (texts : Texts) → IsKeptFor devices texts result }
    {
        Kept {
            linked: Vec::new(alloc),
            explained: Vec::new(alloc),
        }
    }

    // The entry that is kept for the definition, with its program, if one is.
    fn linked_again(&self, module: &Name, def: &Name) -> Option<Rc<LinkedEntry>>
        ensures { (devices : List DeviceDecl) (texts : Texts) → IsKeptFor devices texts self.now
            → IfSome result (λ it. IsLinkedFor devices texts «module».now def.now it.value) }
    {
        for it in &self.linked {
            if is_entry_of(&it.value, module, def) {
                return it.value.clone().ok();
            }
        }
        None
    }

    // The explanation that is kept for the elements in the signature of the definition, if one is.
    fn explained_again(&self, module: &Name, def: &Name, set: &CapSet) -> Option<Rc<Explained>>
        ensures { (devices : List DeviceDecl) (texts : Texts) → IsKeptFor devices texts self.now
            → IfSome result (λ it. IsExplainedFor devices texts «module».now def.now set.now.list it.value) }
    {
        for it in &self.explained {
            if is_explanation_of(&it.value, module, def, set) {
                return it.value.clone().ok();
            }
        }
        None
    }
}

/// Gives up all that is kept, where a command that puts or removes a module was not answered by a refusal.
pub fn give_up_where_changed(alloc: Global, kept: &mut Kept, answer: &Result<bool, WriteAll>)
    ensures { (devices : List DeviceDecl) (old new : Texts) → IsKeptFor devices old kept.old → StayWhereRefused answer.now old new
        → IsKeptFor devices new kept.new }
{
    let stays = match answer {
        Ok(refused) => *refused,
        Err(_) => false,
    };
    if !stays {
        *kept = Kept::nothing(alloc);
    }
}

// How many bytes the text of the module has, if it is present.
fn text_size(session: &Session, name: &Name) -> usize
    ensures { result ≡ plain.text_size session.now.present name.now }
{
    match session.text(name) {
        Ok(text) => text.len(),
        Err(NoSuchModule) => 0,
    }
}

// How many bytes the texts of the modules have.
fn texts_size(session: &Session, modules: &[EntryModule]) -> usize
    ensures { result ≡ plain.texts_size session.now.present modules.now }
{
    let mut size: usize = 0;
    for module in modules {
        size = size.saturating_add(text_size(session, &module.name));
    }
    size
}

/// The entry of the definition of the module, with its program. One that is kept serves where it is that of the
/// definition, and else this one is kept.
///
/// Refused as `Session::entry` is. Fails besides only for want of memory, as which too many cells count, and only where it
/// is not refused.
pub fn linked_entry(
    alloc: Global,
    session: &Session,
    kept: &mut Kept,
    module: &Name,
    def: &Name,
) -> Result<Rc<LinkedEntry>, EntryError>
    requires checked { IsTrue session.now.checked }
    requires kept { IsKeptFor session.now.devices session.now.present kept.old }
    ensures answer { MatchResult result (λ it. IsLinkedFor session.now.devices session.now.present «module».now def.now it.value)
        (λ error. AnswersEntry session.now.devices session.now.present «module».now def.now (Err error)) }
    ensures kept { IsKeptFor session.now.devices session.now.present kept.new }
{
    if let Some(it) = kept.linked_again(module, def) {
        return Ok(it);
    }
    match session.entry(module, def) {
        Ok(entry) => {
            // Room is made first, so that no more than has room is there at once.
            let size = texts_size(session, entry.modules.as_slice());
            make_room(&mut kept.linked, size);
            match linked(alloc, entry) {
                Ok(it) => {
                    keep(&mut kept.linked, &it, size);
                    Ok(it)
                }
                Err(AllocError) => Err(EntryError::NoMemory),
            }
        }
        Err(error) => Err(error),
    }
}

/// Why each element of the set is in the signature of the definition of the module. An explanation that is kept serves where
/// it is that of the definition and the set, and else this one is kept.
///
/// Fails only for want of memory, as which 2^32 - 1 definitions or more count.
pub fn explained_for(
    alloc: Global,
    session: &Session,
    kept: &mut Kept,
    module: &Name,
    def: &Name,
    set: &CapSet,
) -> Result<Rc<Explained>, AllocError>
    requires checked { IsTrue session.now.checked }
    requires kept { IsKeptFor session.now.devices session.now.present kept.old }
    ensures explained { IfOk result (λ it. IsExplainedFor session.now.devices session.now.present «module».now def.now set.now.list it.value) }
    ensures kept { IsKeptFor session.now.devices session.now.present kept.new }
{
    if let Some(it) = kept.explained_again(module, def, set) {
        return Ok(it);
    }
    let modules = session.linked(module)?;
    let devices = narrow(session.devices().len())?;
    let size = texts_size(session, modules.as_slice());
    let it = explain(alloc, devices, modules, module, def, set)?;
    make_room(&mut kept.explained, size);
    keep(&mut kept.explained, &it, size);
    Ok(it)
}
