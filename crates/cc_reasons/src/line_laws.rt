//! The lines of a reason. The functions do nothing.
ghost use Rattle.cc_reasons.specs.LineLaws.{LinesAreUnique, ReasonsHaveLines, ReasonsOfDefinitionsHaveLines};

/// Who is told why finds the same lines each time.
pub fn lines_are_unique()
    ensures { LinesAreUnique }
{}

/// For whatever reason a definition is refused, there are lines that tell it.
pub fn reasons_have_lines()
    ensures { ReasonsHaveLines }
{}

/// And so for a module that is refused for one of its definitions.
pub fn reasons_of_definitions_have_lines()
    ensures { ReasonsOfDefinitionsHaveLines }
{}
