//! Reading the next item of a submission.

ghost use Rattle.std.specs.Prelude.{◌≡◌, ◌-◌, ◌^◌, ◌<◌, IsTrue};
ghost use Rattle.std.specs.Io.KnownBytes.{IsAtEnd};
ghost use Rattle.cc_item_reading.specs.ItemReading.{ReadItemCause};
ghost use Rattle.cc_submission_reading.specs.HeadReading.{item_with};
ghost use Rattle.cc_submission_reading.specs.Submitting.{IsInOrder};
ghost use Rattle.cc_submission_reading.specs.SubmissionReading.{HearsNextItem, HearsFirstLine, HearsBehind, IsItemHeard};

use crate::heads::{ItemHead, item_head_of, line_count};
use crate::so_far::Submitted;
use cc_base::device::DeviceDecl;
use cc_base::name::Name;
use cc_io::Source;
use cc_item_reading::reading::{NotHeard, hear_line, hear_text, without_feed};
use cc_line_reading::lines::LineReader;
use std::alloc::{AllocError, Global};

/// The greatest number of bytes of the lines of an item.
const ITEM_LIMIT: usize = 4_294_967_295;

/// What was heard next.
#[derive(Drop)]
pub enum Heard {
    /// Nothing: nothing is left.
    End,
    /// A device is declared.
    Device(DeviceDecl),
    /// A module comes by this name, with its text.
    Module(Name, Vec<u8>),
    /// The definition of the module, both by their names, has this certificate.
    Claim(Name, Name, Vec<u8>),
}

// What was heard of the line with the bytes behind it.
fn heard_with(head: ItemHead, bytes: Vec<u8>) -> Heard
    ensures { IsItemHeard result (item_with head bytes.items) }
{
    match head {
        ItemHead::Device(device) => Heard::Device(device),
        ItemHead::Module(name, _) => Heard::Module(name, bytes),
        ItemHead::Claim(owner, definition, _) => Heard::Claim(owner, definition, bytes),
    }
}

/// Reads the first line, which is that of each submission.
///
/// `BadLine`: it is another. `CutShort`: there is none. `TooLong`: it has more than 4,294,967,295 bytes. `ReadFault`: a read
/// failed, and the count of faults rose. `NoMemory`: there is no memory.
pub fn hear_first_line<S: Source>(
    alloc: Global,
    reader: &mut LineReader,
    source: &mut S,
    lines: &mut u64,
) -> Result<(), NotHeard>
    requires count { S.faults source.old < 2 ^ 64 - 1 }
    requires known { IsTrue reader.old.ended → IsAtEnd (S.left source.old) }
    ensures heard { HearsFirstLine reader.old reader.new (S.left source.old) (S.left source.new) lines.old lines.new result }
    ensures known { IsTrue reader.new.ended → IsAtEnd (S.left source.new) }
    ensures cause { ReadItemCause (S.faults source.old) (S.faults source.new) result }
{
    let mut bytes = Vec::new(alloc);
    match hear_line(alloc, reader, source, &mut bytes, ITEM_LIMIT, lines) {
        Ok(true) => {}
        Ok(false) => return Err(NotHeard::CutShort),
        Err(error) => return Err(error),
    }
    if without_feed(&bytes) != b"vouch 1".as_slice() {
        return Err(NotHeard::BadLine);
    }
    Ok(())
}

// Reads the lines behind the one of a head, within so many bytes.
fn hear_behind<S: Source>(
    alloc: Global,
    head: ItemHead,
    room: usize,
    reader: &mut LineReader,
    source: &mut S,
    lines: &mut u64,
) -> Result<Heard, NotHeard>
    requires count { S.faults source.old < 2 ^ 64 - 1 }
    requires known { IsTrue reader.old.ended → IsAtEnd (S.left source.old) }
    ensures heard { HearsBehind head room reader.old reader.new (S.left source.old) (S.left source.new) lines.old lines.new result }
    ensures known { IsTrue reader.new.ended → IsAtEnd (S.left source.new) }
    ensures cause { ReadItemCause (S.faults source.old) (S.faults source.new) result }
{
    let mut bytes = Vec::new(alloc);
    let count = line_count(&head);
    match hear_text(alloc, count, room, reader, source, &mut bytes, lines) {
        Ok(()) => Ok(heard_with(head, bytes)),
        Err(error) => Err(error),
    }
}

/// Hears the next item, behind what was said so far.
///
/// `BadLine`: no item begins with the last line that was taken. `CutShort`: the end came where lines of an item are missing.
/// `TooLong`: the lines of the item have more than 4,294,967,295 bytes. `ReadFault`: a read failed, and the count of faults
/// rose. `NoMemory`: there is no memory.
pub fn hear_item<S: Source>(
    alloc: Global,
    so_far: &Submitted,
    reader: &mut LineReader,
    source: &mut S,
    lines: &mut u64,
) -> Result<Heard, NotHeard>
    requires count { S.faults source.old < 2 ^ 64 - 1 }
    requires in_order { IsInOrder so_far.now }
    requires known { IsTrue reader.old.ended → IsAtEnd (S.left source.old) }
    ensures heard { HearsNextItem so_far.now reader.old reader.new (S.left source.old) (S.left source.new)
        lines.old lines.new result }
    ensures known { IsTrue reader.new.ended → IsAtEnd (S.left source.new) }
    ensures cause { ReadItemCause (S.faults source.old) (S.faults source.new) result }
{
    let mut bytes = Vec::new(alloc);
    match hear_line(
        alloc,
        &mut *reader,
        &mut *source,
        &mut bytes,
        ITEM_LIMIT,
        &mut *lines,
    ) {
        Ok(true) => {}
        Ok(false) => return Ok(Heard::End),
        Err(error) => return Err(error),
    }
    let line = without_feed(&bytes);
    match item_head_of(alloc, line) {
        Ok(Some(head)) => {
            if !so_far.may_stand(&head) {
                return Err(NotHeard::BadLine);
            }
            hear_behind(alloc, head, ITEM_LIMIT - bytes.len(), reader, source, lines)
        }
        Ok(None) => return Err(NotHeard::BadLine),
        Err(AllocError) => return Err(NotHeard::NoMemory),
    }
}
