ghost use Rattle.std.specs.Prelude.{◌≡◌, Some};
ghost use Rattle.cc_base.specs.Texts.{code_text};

use crate::place::Place;
use std::fmt;

/// Why a text, a module or a command is refused.
#[derive(Clone, Copy, Debug, PartialEq, Eq)]
pub enum Code {
    /// The text is not UTF-8.
    E01,
    /// No token begins here.
    E02,
    /// No module begins with the tokens up to here.
    E03,
    /// The tree is too high.
    E04,
    /// The import's module is absent.
    E05,
    /// The import's definition is absent.
    E06,
    /// The import's module is refused.
    E07,
    /// The import leads back to this module.
    E08,
    /// A second definition, import or device has this name.
    E09,
    /// The name is unknown.
    E10,
    /// The type name is unknown.
    E11,
    /// The right side is not a value.
    E12,
    /// The head has the wrong shape.
    E13,
    /// The shapes do not match.
    E14,
    /// A set is not below another.
    E15,
    /// The set of an unboxing has the universal capability.
    E16,
    /// A name cannot be avoided.
    E17,
    /// A concluded type is too large.
    E18,
    /// A set is omitted where it has to be written.
    E19,
    /// A module's text is too long.
    E30,
    /// There are too many modules.
    E31,
    /// There is no such module.
    E32,
    /// There is no such definition.
    E33,
    /// The module is not accepted.
    E34,
    /// The entry is no function of a unit.
    E35,
    /// The derivation is too large to be printed.
    E36,
    /// The entry is not permitted.
    E37,
}

/// As `E03`.
impl fmt::Display for Code {
    ghost output = { λ c. Some (code_text c) };

    fn fmt<W: fmt::Write>(&self, f: &mut fmt::Formatter<W>) -> fmt::Result {
        f.write_str(self.text())
    }
}

impl Code {
    /// The code's letters, as `E03`.
    pub fn text(self) -> &'static str
        ensures { result.now ≡ code_text self }
    {
        match self {
            Code::E01 => "E01",
            Code::E02 => "E02",
            Code::E03 => "E03",
            Code::E04 => "E04",
            Code::E05 => "E05",
            Code::E06 => "E06",
            Code::E07 => "E07",
            Code::E08 => "E08",
            Code::E09 => "E09",
            Code::E10 => "E10",
            Code::E11 => "E11",
            Code::E12 => "E12",
            Code::E13 => "E13",
            Code::E14 => "E14",
            Code::E15 => "E15",
            Code::E16 => "E16",
            Code::E17 => "E17",
            Code::E18 => "E18",
            Code::E19 => "E19",
            Code::E30 => "E30",
            Code::E31 => "E31",
            Code::E32 => "E32",
            Code::E33 => "E33",
            Code::E34 => "E34",
            Code::E35 => "E35",
            Code::E36 => "E36",
            Code::E37 => "E37",
        }
    }
}

/// A refusal, with its place in the text.
#[derive(Clone, Copy, Debug, PartialEq, Eq)]
pub struct Diag {
    pub code: Code,
    pub place: Place,
}
