//! The pad: a board of lines and flags, and the calls that enter ranges, work sheets and show what they came to.
#![tactic(auto)]

pub(crate) mod admission;
pub(crate) mod board;
pub(crate) mod cell_index;
mod faults;
mod pad;
pub(crate) mod pile;
pub(crate) mod table;
pub(crate) mod working;

pub use admission::admit;
pub use faults::PadFault;
pub use pad::Pad;
