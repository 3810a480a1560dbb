//! Calls of the program over streams in memory: such as move few bytes a call, or fail at one call or another, and how many
//! modules are judged, which no reply tells.
#![tactic(auto)]

#[cfg(test)]
mod calls;
#[cfg(test)]
mod faults;
