//! Devices: their states, what each operation does to one, the events of a run, and how a run ends.
#![tactic(auto)]

pub mod device_laws;
pub mod ends;
pub mod events;
pub mod states;
pub mod table;

pub use cc_base::literal::Op;
pub use ends::{End, Shown, ShownLit};
pub use events::Event;
pub use states::DeviceState;
pub use table::{Devices, operate};
