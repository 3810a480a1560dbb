//! Conversations: lines in the form of those of a job, of which each command is answered before more is read. What is said
//! in them and what is answered, its laws, and conversing over whatever source and sink.
#![tactic(auto)]

pub mod conversation_laws;
pub mod conversing;
pub mod saying;
