//! Ranges and verdicts: the tightest range that a scale can write round the exact outcomes of an operation. One text for all scales.
#![tactic(auto)]

mod arithmetic;
mod corner;
mod entry;
mod order;
mod range;
mod verdict;

pub use arithmetic::{
    constant, difference, negation, parted, product, quotient, quotient_negative,
    quotient_positive, square, sum,
};
pub use entry::Entry;
pub use order::{at_most, equal, greater, join, less, lesser, meet, pick};
pub use range::Range;
pub use verdict::Verdict;
