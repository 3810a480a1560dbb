//! What is answered to the commands of a job: each is carried out on a session, and its reply is written.
#![tactic(auto)]

pub mod commands;
mod explaining;
pub mod explanation;
pub mod kept;
pub mod linked;
pub mod made;
mod questions;
mod replies;
mod running;
