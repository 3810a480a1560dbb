//! Where refusals of definitions stand, each shown by a text in which the places that a construct has are apart. The functions do nothing.
ghost use Rattle.cc_worked_texts.specs.RefusalPlaces as example;

/// A head that is not of the shape which its construct wants is refused where it starts itself.
pub fn heads()
    ensures { example.HeadPlaces }
{}

/// Another operand of another shape is refused where it starts.
pub fn operands()
    ensures { example.OperandPlaces }
{}

/// A branch and the body of a boundary are refused where they start, with the parenthesis around them.
pub fn parts()
    ensures { example.PartPlaces }
{}

/// A set that is not below another is refused where the term starts that was compared, and `cap` in the set of an unboxing at the word.
pub fn sets()
    ensures { example.SetPlaces }
{}

/// What a `val` writes is refused where its right side starts, and a name that cannot be avoided at the word `val` or where the operand starts that was named.
pub fn lets()
    ensures { example.LetPlaces }
{}

/// A type that is too large is refused where its term starts, with the parenthesis around it; the parts come first.
pub fn sizes()
    ensures { example.SizePlaces }
{}

/// A right side is refused where it starts, and a name that its signature cannot avoid at the name of the definition.
pub fn definitions()
    ensures { example.DefinitionPlaces }
{}
