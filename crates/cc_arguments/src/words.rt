//! What the words of a command line ask for.

ghost use Rattle.std.specs.Prelude.{◌≡◌, ◌≤◌, map, IfSome};
ghost use Rattle.std.specs.String.{string_bytes};
ghost use Rattle.cc_arguments.specs.WordReading.{workload_number, asked_for, asked_by_one, asked_by_two};
ghost use Rattle.cc_arguments.specs.Words.{AsksFor};

use cc_words::words::{behind, number_of};

/// The greatest number of a workload.
const MOST_MODULES: u64 = 200;

/// What words ask for.
#[derive(Clone, Copy, Debug, PartialEq, Eq)]
pub enum Asked {
    /// The job of the source.
    Job,
    /// The workload with this number.
    Workload(u32),
    /// Nothing: they are in no form.
    Nothing,
}

// The number of a workload that the word writes, if it writes one.
fn workload_number(word: &[u8]) -> Option<u32>
    ensures { result ≡ workload_number word.now }
{
    match number_of(word, MOST_MODULES) {
        Some(0) | None => None,
        Some(number) => Some(number as u32),
    }
}

// The workload with the number, if there is one.
fn asked_for(number: Option<u32>) -> Asked
    ensures { result ≡ asked_for number }
{
    match number {
        Some(number) => Asked::Workload(number),
        None => Asked::Nothing,
    }
}

// What a word alone asks for.
fn asked_by_one(word: &[u8]) -> Asked
    ensures { result ≡ asked_by_one word.now }
{
    match behind(word, "--workload=") {
        Some(digits) => asked_for(workload_number(digits)),
        None => Asked::Nothing,
    }
}

// What two words ask for.
fn asked_by_two(option: &[u8], digits: &[u8]) -> Asked
    ensures { result ≡ asked_by_two option.now digits.now }
{
    if option == b"--workload".as_slice() {
        asked_for(workload_number(digits))
    } else {
        Asked::Nothing
    }
}

/// What the words behind the program's name ask for. It takes no memory.
#[tactic(auto, using(crate::proofs::WordLaws::words_ask))]
pub fn asked_by(words: &[String]) -> Asked
    ensures { AsksFor (map string_bytes words.now) result }
{
    match words.len() {
        0 => Asked::Job,
        1 => asked_by_one(words[0].as_bytes()),
        2 => asked_by_two(words[0].as_bytes(), words[1].as_bytes()),
        _ => Asked::Nothing,
    }
}
