//! Why elaboration refuses a module, and where.

use cc_base::code::Code;
use cc_base::name::Name;
use cc_base::place::Place;

/// The forms of expressions.
#[derive(Clone, Copy, Debug, PartialEq, Eq)]
pub enum ExpressionForm {
    /// A name.
    AName,
    /// A literal.
    ALiteral,
    /// `val x = e; f`
    AVal,
    /// `fun (x: T) => e`
    AFunction,
    /// `fun [X <: S] => e`
    ATypeFunction,
    /// `if [T] e then f else g`
    AChoice,
    /// `boundary [S] x => e`
    ABoundary,
    /// Two numbers with an operator between them.
    AnOperator,
    /// `box e`
    ABox,
    /// `unbox e` or `unbox {a, b} e`
    AnUnboxing,
    /// `e(f)`
    AnApplication,
    /// `e[S]`
    ATypeApplication,
    /// An operation of a device.
    AnOperation,
    /// `exit [T] (e, f)`
    AnExit,
    /// `repeat (e, f)`
    ARepetition,
}

/// Where the set of a type may not be omitted.
#[derive(Clone, Copy, Debug, PartialEq, Eq)]
pub enum StrictPlace {
    /// In the content of a box.
    InBox,
    /// In the parameter of a function's type.
    InParameter,
    /// In the result of a function's type.
    InResult,
    /// In the result of a type function's type.
    InTypeResult,
    /// In the type of an `exit`.
    InExit,
    /// In the type of a recursive definition.
    InRecursion,
}

/// Why elaboration refuses a module.
#[derive(Drop)]
pub enum ElaborationCause {
    /// The name is taken, and stands first at this place, or is that of a device.
    Repeated { name: Name, first: Option<Place> },
    /// No term has the name.
    UnknownName(Name),
    /// No type has the name.
    UnknownType(Name),
    /// The right side of a definition, which is of this form, is no value, or in a recursive one no function.
    NotAValue(ExpressionForm),
    /// A set is omitted that has to be written.
    OmittedSet(StrictPlace),
}

impl ElaborationCause {
    ghost use Rattle.std.specs.Prelude.{◌≡◌};
    ghost use Rattle.cc_elaboration_reasons.specs.ElaborationCauses.{code_of};
    ghost use Rattle.cc_elaboration_reasoning.specs.Views.{cause_seen};

    /// The code of a refusal with the cause.
    pub fn code(&self) -> Code
        ensures { result ≡ code_of (cause_seen self.now) }
    {
        match self {
            ElaborationCause::Repeated { name: _, first: _ } => Code::E09,
            ElaborationCause::UnknownName(_) => Code::E10,
            ElaborationCause::UnknownType(_) => Code::E11,
            ElaborationCause::NotAValue(_) => Code::E12,
            ElaborationCause::OmittedSet(_) => Code::E19,
        }
    }
}

/// A refusal of elaboration: its cause, and its place.
#[derive(Drop)]
pub struct ElaborationRefusal {
    pub cause: ElaborationCause,
    pub at: Place,
}
