//! Why a step of inference is refused, with the local variables as their author knows them.

ghost use Rattle.std.specs.Prelude.{◌≡◌, ◌∷◌, [], IfOk};
ghost use Rattle.cc_reasons.specs.ExplainedInference as plain;
ghost use Rattle.cc_causes.specs.Views.{local_of, locals_of, binder_names_of};

use cc_base::literal::Base;
use cc_base::name::Name;
use cc_base::place::Place;
use cc_core::{Ctx, Shape, Ty};
use std::alloc::{AllocError, AllocFailed, Global};
use std::rc::Rc;

/// A local variable: the name of its binder, if the text has one, and the place of that.
#[derive(Drop)]
pub struct Local {
    pub name: Option<Name>,
    pub at: Place,
}

/// The local variables of the newest positions of a context, the newest first.
#[derive(Drop)]
pub enum Locals {
    /// There is none.
    End,
    /// One, and those before it.
    More(Local, Rc<Locals>),
}

/// A context, and the local variables of its newest positions.
#[derive(Drop)]
pub struct Scene {
    pub ctx: Ctx,
    pub locals: Rc<Locals>,
}

/// The names of a term's binders, as the text has them.
#[derive(Drop)]
pub enum Binders {
    /// There is no binder.
    Alone,
    /// One around the only part.
    Around(Option<Name>, Rc<Binders>),
    /// One around the second of two parts.
    Between(Option<Name>, Rc<Binders>, Rc<Binders>),
}

/// What is wanted at a head.
#[derive(Clone, Copy, Debug, PartialEq, Eq)]
pub enum Head {
    /// A function.
    AFunction,
    /// A type function.
    ATypeFunction,
    /// A box.
    ABox,
    /// An exit.
    AnExit,
    /// A device of the base shape.
    ABase(Base),
}

/// Why a step of inference is refused.
#[derive(Drop)]
pub enum Cause {
    /// At a head stands a shape of another form.
    WrongHead {
        scene: Scene,
        found: Rc<Shape>,
        wanted: Head,
    },
    /// A type does not match the one that is wanted.
    WrongType {
        scene: Scene,
        found: Ty,
        wanted: Ty,
    },
    /// A shape does not match the one that is wanted, and sets do not count.
    WrongShape {
        scene: Scene,
        found: Rc<Shape>,
        wanted: Rc<Shape>,
    },
    /// What has to be there is not.
    NothingThere,
    /// The variable at the position cannot be avoided in the type.
    Unavoidable {
        scene: Scene,
        position: u32,
        ty: Ty,
    },
    /// The type is too large.
    TooLarge {
        scene: Scene,
        ty: Ty,
    },
}

/// Why explaining stops before its end.
#[derive(Drop)]
pub enum Halt {
    /// There is no memory.
    NoMemory,
    /// A step is refused for the cause, at the place.
    Refused(Rc<Cause>, Place),
}

impl From<AllocError> for Halt {
    ghost use Rattle.std.specs.Prelude.{◌≡◌};
    ghost use Rattle.cc_causes.specs.declared.reason.Halt.TheVariants.{NoMemory};

    ghost from_gives = { λ _ halt. halt ≡ NoMemory };

    fn from(_error: AllocError) -> Halt {
        Halt::NoMemory
    }
}

impl<T: Drop> From<AllocFailed<T>> for Halt {
    ghost use Rattle.std.specs.Prelude.{◌≡◌};
    ghost use Rattle.cc_causes.specs.declared.reason.Halt.TheVariants.{NoMemory};

    ghost from_gives = { λ _ halt. halt ≡ NoMemory };

    fn from(_error: AllocFailed<T>) -> Halt {
        Halt::NoMemory
    }
}

/// The same scene. What is in it is shared.
impl Clone for Scene {
    ghost use Rattle.std.specs.Prelude.{◌≡◌};
    ghost use Rattle.cc_causes.specs.Views.{scene_of};

    ghost is_clone = { λ scene copy. scene_of copy ≡ scene_of scene };

    fn clone(&self) -> Result<Scene, AllocError> {
        let ctx = self.ctx.clone()?;
        let locals = self.locals.clone()?;
        Ok(Scene { ctx, locals })
    }
}

/// The local variables with one more, the newest. The others are shared.
pub fn with_local(alloc: Global, local: Local, older: &Rc<Locals>) -> Result<Rc<Locals>, AllocError>
    ensures { IfOk result (λ l. locals_of l.value ≡ local_of local ∷ locals_of older.now.value) }
{
    let older = older.clone()?;
    Ok(Rc::new(alloc, Locals::More(local, older))?)
}

/// No local variable.
pub fn no_locals(alloc: Global) -> Result<Rc<Locals>, AllocError>
    ensures { IfOk result (λ l. locals_of l.value ≡ []) }
{
    Ok(Rc::new(alloc, Locals::End)?)
}

// A copy of the name, which is shared.
fn copy_name(name: &Option<Name>) -> Result<Option<Name>, AllocError>
    ensures { IfOk result (λ n. n ≡ name.now) }
{
    match name {
        Some(name) => Ok(Some(name.clone()?)),
        None => Ok(None),
    }
}

impl Binders {
    ghost use Rattle.std.specs.Prelude.{◌≡◌, IfOk};
    ghost use Rattle.cc_reasons.specs.ExplainedInference.{own_name, first_names, second_names};
    ghost use Rattle.cc_causes.specs.Views.{binder_names_of};

    /// The name of the term's own binder, if the text has one.
    pub fn own(&self) -> Result<Option<Name>, AllocError>
        ensures { IfOk result (λ n. n ≡ own_name (binder_names_of self.now)) }
    {
        match self {
            Binders::Alone => Ok(None),
            Binders::Around(name, _) => copy_name(name),
            Binders::Between(name, _, _) => copy_name(name),
        }
    }

    /// The names in the first part.
    pub fn first(&self) -> &Binders
        ensures { binder_names_of result.now ≡ first_names (binder_names_of self.now) }
    {
        match self {
            Binders::Alone => self,
            Binders::Around(_, part) => part,
            Binders::Between(_, one, _) => one,
        }
    }

    /// The names in the second part.
    pub fn second(&self) -> &Binders
        ensures { binder_names_of result.now ≡ second_names (binder_names_of self.now) }
    {
        match self {
            Binders::Alone => self,
            Binders::Around(_, part) => part,
            Binders::Between(_, _, other) => other,
        }
    }
}

/// The local variable of the term's own binder, which stands at the place.
pub fn bound_at(binders: &Binders, at: Place) -> Result<Local, AllocError>
    ensures { IfOk result (λ l. local_of l ≡ plain.bound_at (binder_names_of binders.now) at) }
{
    let name = binders.own()?;
    Ok(Local { name, at })
}
