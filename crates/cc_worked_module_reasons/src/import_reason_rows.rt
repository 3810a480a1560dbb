//! Why imports find no definition. The functions do nothing.
ghost use Rattle.cc_worked_module_reasons.specs.ImportReasonRows as example;

/// Worked reasons: modules that are not present.
pub fn absent_modules()
    ensures { example.AbsentModules }
{}

/// Worked reasons: definitions that modules do not have.
pub fn absent_definitions()
    ensures { example.AbsentDefinitions }
{}

/// Worked reasons: modules that are refused.
pub fn refused_modules()
    ensures { example.RefusedModules }
{}

/// Worked reasons: circles.
pub fn circles()
    ensures { example.Circles }
{}

/// Worked reasons: the lines in which they are told.
pub fn told_imports()
    ensures { example.ToldImports }
{}
