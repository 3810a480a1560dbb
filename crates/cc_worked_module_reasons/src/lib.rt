//! Worked reasons: why modules are refused. The functions do nothing.
#![tactic(auto)]

pub mod import_reason_rows;
pub mod text_reason_rows;
