ghost use Rattle.std.specs.Prelude.{◌≡◌, ◌++◌, ◌==◌, ◌||◌, length, MatchOption, encode_utf8};
ghost use Rattle.std.specs.Char.{is_ascii_alphanumeric};
ghost use Rattle.std.specs.Option.{option_map};
ghost use Rattle.std.specs.Str.{chars};
ghost use Rattle.unicode_ident.specs.Ident.{is_xid_continue};
ghost use Rattle.cc_base.specs.Names.{first_passes};
ghost use Rattle.cc_lex.specs.Forms.{stands_in_string};
ghost use Rattle.cc_lex.specs.Cutting.{size_of, is_in, is_space, front_in, IsPastOne};

/// How many characters a text has, and how many bytes they take.
#[derive(Clone, Copy, Debug, PartialEq, Eq)]
pub struct Size {
    pub characters: usize,
    pub bytes: usize,
}

/// A class of characters.
#[derive(Clone, Copy, Debug, PartialEq, Eq)]
pub enum Class {
    /// The digits of a number.
    Digits,
    /// What a name or a reserved word goes on with.
    Words,
    /// What may stand in a string.
    Strings,
    /// All that does not end a line.
    Lines,
    /// White space that does not end a line.
    Spaces,
}

// The same, whichever the first character is.
#[inline(never)]
fn decoded(text: &str) -> Option<(char, &str)>
    ensures { MatchOption result (length text.now ≡ 0) (λ it. text.now ≡ encode_utf8 it.0 ++ it.1.now) }
{
    let mut characters = text.chars();
    match characters.next() {
        Some(first) => Some((first, characters.as_str())),
        None => None,
    }
}

/// The first character of a text, and what follows it.
#[inline]
pub fn first_and_rest(text: &str) -> Option<(char, &str)>
    ensures { MatchOption result (length text.now ≡ 0) (λ it. text.now ≡ encode_utf8 it.0 ++ it.1.now) }
{
    match text.as_bytes() {
        [] => None,
        [byte, ..] => {
            if byte.is_ascii() {
                Some((*byte as char, &text[1..]))
            } else {
                decoded(text)
            }
        }
    }
}

/// Whether the text begins with the character.
#[inline]
pub fn begins_with(text: &str, character: char) -> bool
    ensures { result ≡ first_passes (λ c. c == character) (chars text.now) }
{
    match first_and_rest(text) {
        Some((first, _)) => first == character,
        None => false,
    }
}

#[inline]
fn is_letter_or_digit(character: char) -> bool
    ensures { result ≡ (is_ascii_alphanumeric character || (character == 95)) }
{
    character.is_ascii_alphanumeric() || character == '_'
}

#[inline]
fn continues_word(character: char) -> bool
    ensures { result ≡ is_xid_continue character }
{
    if character.is_ascii() {
        is_letter_or_digit(character)
    } else {
        unicode_ident::is_xid_continue(character)
    }
}

#[inline]
fn stands_in_string(character: char) -> bool
    ensures { result ≡ stands_in_string character }
{
    character >= ' ' && !(character == '"' || character == '\\' || character == '\u{7f}')
}

#[inline]
fn is_space(character: char) -> bool
    ensures { result ≡ is_space character }
{
    character == ' ' || character == '\t' || character == '\r'
}

#[inline]
fn is_in(class: Class, character: char) -> bool
    ensures { result ≡ is_in class character }
{
    match class {
        Class::Digits => character.is_ascii_digit(),
        Class::Words => continues_word(character),
        Class::Strings => stands_in_string(character),
        Class::Lines => character != '\n',
        Class::Spaces => is_space(character),
    }
}

#[inline]
fn past_one(class: Class, text: &str) -> Option<&str>
    ensures { IsPastOne class text.now (option_map (λ rest. rest.now) result) }
{
    let Some((first, rest)) = first_and_rest(text) else {
        return None;
    };
    if is_in(class, first) {
        Some(rest)
    } else {
        None
    }
}

/// The size of the longest front of a text with characters of the class alone.
#[inline]
pub fn size_in(class: Class, text: &str) -> Size
    ensures { result ≡ size_of (front_in class (chars text.now)) }
{
    let whole = text.len();
    let mut characters = 0;
    let mut rest = text;
    while let Some(behind) = past_one(class, rest) {
        characters += 1;
        rest = behind;
    }
    Size {
        characters,
        bytes: whole - rest.len(),
    }
}
