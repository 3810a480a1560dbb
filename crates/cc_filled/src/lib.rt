//! Terms with their omitted sets filled in: whether a term is another one, of which any omitted sets were filled in.
#![tactic(auto)]

pub mod filled;
pub mod filled_laws;

pub use filled::is_filled_as;
