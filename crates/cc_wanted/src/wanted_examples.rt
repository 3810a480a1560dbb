//! Fronts of modules with the kinds that are wanted behind them. The function does nothing.

ghost use Rattle.cc_wanted.specs.WantedExamples.{WorkedFronts};

/// What is wanted behind fronts of modules, from no tokens at all to an expression that is as high as any may be.
pub fn worked_fronts()
    ensures { WorkedFronts }
{}
