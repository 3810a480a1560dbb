//! Linking: one program from the modules of an entry; and what the definitions of modules link to, numbered.
#![tactic(auto)]

mod entries;
mod imported_positions;
pub mod linking;
pub mod module_link_laws;
pub mod module_links;
pub mod positions;
pub mod table;

pub use linking::link;
