ghost use Rattle.std.specs.Prelude.{Some};
ghost use Rattle.cc_base.specs.Texts.{place_text};

use std::fmt;

/// A place in a text. Lines and columns count from 1, and a column counts code points.
#[derive(Clone, Copy, Debug, PartialEq, Eq)]
pub struct Place {
    pub line: u32,
    pub col: u32,
}

/// As `LINE:COL`.
impl fmt::Display for Place {
    ghost output = { λ p. Some (place_text p) };

    fn fmt<W: fmt::Write>(&self, f: &mut fmt::Formatter<W>) -> fmt::Result {
        let line = self.line;
        let col = self.col;
        write!(f, "{line}:{col}")
    }
}
