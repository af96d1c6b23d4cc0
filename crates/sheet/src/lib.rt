//! Sheets: lists of instructions in files, and the rules that they keep.
#![tactic(auto)]

pub(crate) mod clearing;
mod faults;
pub(crate) mod filed;
mod instruction;
pub(crate) mod instructions;
pub(crate) mod operation;
mod sheet;
pub(crate) mod tally;

pub use faults::{ClearingFault, FilingFault};
pub use instruction::Instruction;
pub use instructions::Instructions;
pub use sheet::{ClearedSheet, FiledSheet, Uncleared};
