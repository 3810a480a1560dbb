//! The core language: shapes and types with capture sets, terms, and contexts.
#![tactic(auto)]

pub mod acting;
pub mod acting_terms;
pub mod context;
pub mod copies;
pub mod derivation_laws;
pub mod occurrences;
pub mod reading;
pub mod same;
pub mod sizes;
pub mod subcapturing_laws;
pub mod substitution;
pub mod term_laws;
pub mod terms;
pub mod types;
pub mod wellformed;

pub use cc_base::literal::{Base, Lit, Op, Operator};
pub use cc_capture::{CapSet, Elem, Var};
pub use context::{Bind, Ctx};
pub use copies::copy_literal;
pub use terms::{Checked, CoreDef, Form, Node, Note};
pub use types::{Shape, Ty};
