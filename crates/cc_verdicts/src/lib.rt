//! What the verdicts of modules are, and the laws of that, apart from any code: each text has one verdict for what is found for
//! its imports, and the present modules have one verdict each. The functions do nothing; each has a law as its contract.
#![tactic(auto)]

pub mod example_modules;
pub mod module_laws;
pub mod present_laws;
pub mod standing_laws;
