//! The text of terms, and of derivations with the context and the term that they are about.
#![tactic(auto)]

pub mod certificate_text_laws;
pub mod certificates;
mod claims;
mod nodes;
pub mod terms;
pub mod writing;

pub use certificates::{cert_text, put_cert, write_cert};
pub use terms::term_text;
