//! Reading certificates back from their bytes: their words, sets, shapes, types and terms, and their lines.
#![tactic(auto)]

pub mod binds;
pub mod certificate;
pub mod claims;
pub mod literals;
mod names;
pub mod nodes;
pub mod numbers;
mod plain_terms;
pub mod read;
pub mod reading_examples;
pub mod rules;
pub mod sets;
pub mod stop;
pub mod terms;
pub mod types;
pub mod words;

pub use certificate::{Cert, CertNode, ReadCertError};
pub use read::read_cert;
