//! Writing what is answered to a module that comes with certificates: its signatures, or why it is not vouched for.
#![tactic(auto)]

pub mod refusals;
pub mod signatures;
