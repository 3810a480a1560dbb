//! Worked submissions. The functions do nothing.
ghost use Rattle.cc_worked_vouching.specs.VouchingExamples as example;

/// Modules that are vouched for, with their signatures.
pub fn vouched_for()
    ensures { example.VouchedFor }
{}

/// Each reason why something is not vouched for.
pub fn reasons()
    ensures { example.Reasons }
{}

/// What a certificate might be forged by, and the reason that is told of it.
pub fn forgeries()
    ensures { example.Forgeries }
{}
