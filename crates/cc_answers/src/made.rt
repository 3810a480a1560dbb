//! Things that were made of texts, and room for a further one among them.

ghost use Rattle.std.specs.Prelude.{◌≡◌};
ghost use Rattle.cc_answers.specs.MadeThings as plain;

use std::rc::Rc;

// So many things are kept at most.
const GREATEST_COUNT: usize = 8;

// The texts of all things that are kept beside another one have so many bytes at most.
const GREATEST_SIZE: usize = 2097152;

/// Something that was made of texts of so many bytes.
#[derive(Drop)]
pub struct Made<T> {
    pub value: T,
    pub size: usize,
}

// Whether the texts of all have so many bytes at most, with those of a further one.
fn fit<T>(made: &[Made<T>], size: usize) -> bool
    ensures { result ≡ plain.fit made.now size }
{
    let mut sum = size;
    for it in made {
        sum = sum.saturating_add(it.size);
    }
    sum <= GREATEST_SIZE
}

// Whether there is room for a further one. Where there is none, there is always.
fn has_room<T>(made: &[Made<T>], size: usize) -> bool
    ensures { result ≡ plain.has_room made.now size }
{
    if made.is_empty() {
        return true;
    }
    made.len() < GREATEST_COUNT && fit(made, size)
}

/// Gives up the first ones, as few as have to be for there to be room for a further one.
pub fn make_room<T: Drop>(made: &mut Vec<Made<T>>, size: usize)
    ensures { made.new.items ≡ plain.left_for size made.old.items }
{
    while !has_room(made.as_slice(), size) {
        let _given_up = made.remove(0);
    }
}

/// Puts the value behind the others, made of texts of so many bytes, if there is memory for that.
pub fn keep<T: Drop>(made: &mut Vec<Made<Rc<T>>>, value: &Rc<T>, size: usize)
    ensures { plain.IsKeptBehind made.old.items value.now.value size made.new.items }
{
    if let Ok(value) = value.clone() {
        let _ = made.push(Made { value, size });
    }
}
