//! The laws of filled terms. The functions do nothing; each has a law as its contract.
ghost use Rattle.cc_filled.specs.FilledExamples as example;
ghost use Rattle.cc_filled.specs.FilledLaws as law;

/// The test says exactly whether a term is another one with its omitted sets filled in.
pub fn the_test_decides()
    ensures { law.TheTestDecides }
{}

/// A term that is filled in is a value, and a function, exactly where it was one before.
pub fn values_stay_values()
    ensures { law.ValuesStayValues }
{}

/// Worked terms: what may be filled in, and what may not.
pub fn worked_terms()
    ensures filled { example.FilledIn }
    ensures others { example.NotFilledIn }
{}
