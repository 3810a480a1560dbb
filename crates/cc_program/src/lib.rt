//! One call of the program: with the words of its command line it carries out a job, or the job of a workload, over
//! whatever streams it is given, and says how that ended.
#![tactic(auto)]

pub mod call_laws;
pub mod job_laws;
pub mod program;
pub mod reply_laws;
pub mod run;
pub mod status;
mod usage;
mod words;
mod workload;
