//! Which definitions can be run, by example, and why others cannot. The functions do nothing.
ghost use Rattle.cc_worked_replies.specs.StartedDefinitions as example;

/// Functions that take a unit can, with whatever set, and no value of another shape.
pub fn runnable_shapes()
    ensures { example.RunnableShapes }
{}

/// The first of these decides: the module is present, it is accepted, it has the definition, and that takes a unit.
pub fn started_by_name()
    ensures { example.StartedByName }
{}
