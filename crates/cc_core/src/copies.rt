//! Copies of types, of what is written for a type, and of literals. The parts are shared.
ghost use Rattle.std.specs.Prelude.{◌≡◌, IfOk};
ghost use Rattle.cc_base.specs.Literals.{literal_of};
ghost use Rattle.cc_core.specs.TermViews.{type_of, note_of};

use crate::terms::Note;
use crate::types::Ty;
use cc_base::literal::Lit;
use std::alloc::AllocError;

/// A clone is the same type and shares its shape. It fails only for want of memory.
impl Clone for Ty {
    ghost is_clone = { λ ty copy. type_of copy ≡ type_of ty };

    #[inline(always)]
    fn clone(&self) -> Result<Ty, AllocError> {
        let shape = self.shape.clone()?;
        let set = self.set.clone()?;
        Ok(Ty { shape, set })
    }
}

/// A clone is the same note and shares its parts. It fails only for want of memory.
impl Clone for Note {
    ghost is_clone = { λ note copy. note_of copy ≡ note_of note };

    fn clone(&self) -> Result<Note, AllocError> {
        match self {
            Note::Absent => Ok(Note::Absent),
            Note::Written(ty) => Ok(Note::Written(ty.clone()?)),
            Note::Own(shape) => Ok(Note::Own(shape.clone()?)),
        }
    }
}

/// The same literal. A text is shared. Fails only for want of memory.
pub fn copy_literal(literal: &Lit) -> Result<Lit, AllocError>
    ensures { IfOk result (λ copy. literal_of copy ≡ literal_of literal.now) }
{
    match literal {
        Lit::Unit => Ok(Lit::Unit),
        Lit::Bool(truth) => Ok(Lit::Bool(*truth)),
        Lit::Int(number) => Ok(Lit::Int(*number)),
        Lit::Str(text) => Ok(Lit::Str(text.clone()?)),
    }
}
