ghost use Rattle.std.specs.Prelude.{◌≡◌, ◌-◌, ◌^◌, ◌<◌, ◌≤◌, ◌++◌, ◌∷◌, [], length, false, Err, IsTrue, OnOk, OnErr};
ghost use Rattle.std.specs.Io.KnownBytes.{IsAtEnd};
ghost use Rattle.cc_io.specs.Wholes.{ReadAllCause};
ghost use Rattle.cc_line_reading.specs.LineReading.{HearsNext, ReadsAsNeeded, PutsWithin, PutsFront, Refills, HasMore};

use cc_io::{Failed, ReadAll, Source};
use cc_words::words::cut_at;
use std::alloc::{AllocError, Global};
use std::marker::Model;

/// How many bytes are asked for at most in one read.
const PIECE: usize = 4096;

/// Reads a source line by line. It holds what was read and not taken yet, fewer than 4,097 bytes. Contracts see that, and
/// whether the source has come to its end, behind which it is not read again.
///
/// All reads go into the same memory, and what is held stands in it from one place to another.
#[derive(Drop)]
pub struct LineReader {
    piece: Vec<u8>,
    from: usize,
    to: usize,
    ended: bool,
}

impl Model for LineReader {
    ghost use Rattle.std.specs.Prelude.{◌≤◌, ◌-◌, take, drop, vec_len};
    ghost use Rattle.cc_line_reading.specs.LineReading.{Held};

    ghost Value = { Held };

    ghost view = { λ s. record { bytes = take (s.to - s.from) (drop s.from s.piece.items); ended = s.ended } };

    ghost invariant = { λ s. (s.from ≤ s.to) × (s.to ≤ vec_len s.piece) × (vec_len s.piece ≤ 4096) };
}

// Puts bytes behind the line, where there is room for them and a line feed within the limit.
fn put_front(line: &mut Vec<u8>, front: &[u8], limit: usize) -> Result<(), ReadAll>
    requires { length line.old.items ≤ limit }
    ensures { PutsWithin line.old.items line.new.items front.now limit result }
{
    if front.len() >= limit - line.len() {
        return Err(ReadAll::TooLong);
    }
    match line.extend_from_slice(front) {
        Ok(()) => Ok(()),
        Err(AllocError) => Err(ReadAll::NoMemory),
    }
}

// Puts a line feed behind the line.
fn put_feed(line: &mut Vec<u8>) -> Result<(), ReadAll>
    ensures put { OnOk result (line.new.items ≡ line.old.items ++ (10 ∷ [])) }
    ensures none { OnErr result (result ≡ Err ReadAll.NoMemory) }
{
    match line.push(b'\n') {
        Ok(()) => Ok(()),
        Err(_) => Err(ReadAll::NoMemory),
    }
}

// Makes sure that there is memory to read into.
fn make_room(alloc: Global, piece: &mut Vec<u8>) -> Result<(), ReadAll>
    requires { length piece.old.items ≤ 4096 }
    ensures small { length piece.new.items ≤ 4096 }
    ensures some { OnOk result (0 < length piece.new.items) }
    ensures none { OnErr result (result ≡ Err ReadAll.NoMemory) }
{
    if !piece.is_empty() {
        return Ok(());
    }
    match Vec::from_elem(alloc, 0, PIECE) {
        Ok(room) => {
            *piece = room;
            Ok(())
        }
        Err(AllocError) => Err(ReadAll::NoMemory),
    }
}

impl LineReader {
    /// Nothing was read yet. It takes no memory.
    pub fn new(alloc: Global) -> LineReader
        ensures { result ≡ record { bytes = []; ended = false } }
    {
        LineReader {
            piece: Vec::new(alloc),
            from: 0,
            to: 0,
            ended: false,
        }
    }

    // Puts the bytes that are held before the first line feed behind the line, or all where there is none, and that line feed.
    // It tells whether there was one.
    fn take_front(&mut self, line: &mut Vec<u8>, limit: usize) -> Result<bool, ReadAll>
        requires { length line.old.items ≤ limit }
        ensures put { PutsFront self.old self.new line.old.items line.new.items limit result }
        ensures ended { self.new.ended ≡ self.old.ended }
    {
        let rest = &self.piece[self.from..self.to];
        match cut_at(rest, b'\n') {
            Some((front, _)) => {
                let taken = front.len();
                if let Err(error) = put_front(&mut *line, front, limit) {
                    return Err(error);
                }
                if let Err(error) = put_feed(line) {
                    return Err(error);
                }
                self.from += taken + 1;
                Ok(true)
            }
            None => {
                if let Err(error) = put_front(line, rest, limit) {
                    return Err(error);
                }
                self.from = self.to;
                Ok(false)
            }
        }
    }

    // Reads a piece of the source, where nothing is held. It tells whether one came.
    fn refill<S: Source>(&mut self, alloc: Global, source: &mut S) -> Result<bool, ReadAll>
        requires count { S.faults source.old < 2 ^ 64 - 1 }
        requires empty { self.old.bytes ≡ [] }
        requires known { IsTrue self.old.ended → IsAtEnd (S.left source.old) }
        ensures read { Refills self.old self.new (S.left source.old) (S.left source.new) result }
        ensures cause { ReadAllCause (S.faults source.old) (S.faults source.new) result }
    {
        if self.ended {
            return Ok(false);
        }
        self.from = 0;
        self.to = 0;
        if let Err(error) = make_room(alloc, &mut self.piece) {
            return Err(error);
        }
        match source.read(&mut self.piece) {
            Ok(0) => {
                self.ended = true;
                Ok(false)
            }
            Ok(read) => {
                self.to = read;
                Ok(true)
            }
            Err(Failed) => Err(ReadAll::ReadFault),
        }
    }

    // Whether bytes are held: a piece is read where none is.
    fn has_more<S: Source>(&mut self, alloc: Global, source: &mut S) -> Result<bool, ReadAll>
        requires count { S.faults source.old < 2 ^ 64 - 1 }
        requires known { IsTrue self.old.ended → IsAtEnd (S.left source.old) }
        ensures more { HasMore self.old self.new (S.left source.old) (S.left source.new) result }
        ensures known { IsTrue self.new.ended → IsAtEnd (S.left source.new) }
        ensures cause { ReadAllCause (S.faults source.old) (S.faults source.new) result }
    {
        if self.from < self.to {
            return Ok(true);
        }
        self.refill(alloc, source)
    }

    /// Puts the next line of the source behind `line`, with a line feed, and tells whether there was one. At the end of the
    /// source a line without its line feed is one. Where there is none, `line` stays.
    ///
    /// `ReadFault`: a read failed, and the count of faults rose. `TooLong`: `line` with the next one and its line feed has more
    /// bytes than the limit. `NoMemory`: there is no memory for the bytes. At an error a part of the line was taken.
    pub fn next_line<S: Source>(
        &mut self,
        alloc: Global,
        source: &mut S,
        line: &mut Vec<u8>,
        limit: usize,
    ) -> Result<bool, ReadAll>
        requires count { S.faults source.old < 2 ^ 64 - 1 }
        requires short { length line.old.items ≤ limit }
        requires known { IsTrue self.old.ended → IsAtEnd (S.left source.old) }
        ensures heard { HearsNext self.old self.new (S.left source.old) (S.left source.new) line.old.items line.new.items limit result }
        ensures needed { ReadsAsNeeded self.old (S.left source.old) (S.left source.new) }
        ensures known { IsTrue self.new.ended → IsAtEnd (S.left source.new) }
        ensures cause { ReadAllCause (S.faults source.old) (S.faults source.new) result }
    {
        let before = line.len();
        loop {
            match self.has_more(alloc, &mut *source) {
                Ok(true) => {}
                Ok(false) => break,
                Err(error) => return Err(error),
            }
            match self.take_front(&mut *line, limit) {
                Ok(true) => return Ok(true),
                Ok(false) => {}
                Err(error) => return Err(error),
            }
        }
        if line.len() == before {
            return Ok(false);
        }
        match put_feed(line) {
            Ok(()) => Ok(true),
            Err(error) => Err(error),
        }
    }
}
