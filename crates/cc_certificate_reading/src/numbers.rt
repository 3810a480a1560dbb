//! Numbers without leading zeros.

ghost use Rattle.std.specs.Prelude.{◌≤◌, OnOk};
ghost use Rattle.cc_certificate_text.specs.Reading.{number_at, same_number_at};
ghost use Rattle.cc_certificate_reading.specs.Agreement.{Agrees};

use crate::stop::{Reading, Stop};
use crate::words::word_at;
use cc_words::words::number_of;

/// A number below 2^32.
#[tactic(auto, unfolding(cc_certificate_text::specs::Reading::number_at))]
pub fn read_number(bytes: &[u8]) -> Reading<'_, u32>
    ensures { Agrees (λ number. number) result (number_at bytes.now) }
{
    let (word, rest) = word_at(bytes);
    match number_of(word, 4_294_967_295) {
        Some(number) => Ok((number as u32, rest)),
        None => Err(Stop::Misfit),
    }
}

/// This number.
#[tactic(auto, unfolding(cc_certificate_text::specs::Reading::same_number_at))]
pub fn read_same(number: u64, bytes: &[u8]) -> Reading<'_, ()>
    ensures same { Agrees (λ it. it) result (same_number_at number bytes.now) }
    ensures low { OnOk result (number ≤ 4294967295) }
{
    let (read, rest) = read_number(bytes)?;
    if u64::from(read) == number {
        Ok(((), rest))
    } else {
        Err(Stop::Misfit)
    }
}
