//! What the entries of present modules are, from which programs are linked, what definitions link to, and that present files
//! are sound, apart from any code. The functions do nothing; each has a law as its contract.
#![tactic(auto)]

pub mod entry_laws;
pub mod example_entries;
pub mod example_files;
pub mod file_laws;
pub mod present_link_examples;
pub mod present_link_laws;
