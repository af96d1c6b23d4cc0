//! The two roundings.

/// Which code stands for a number that may lie between two places.
#[derive(Clone, Copy, PartialEq, Eq, Debug)]
pub enum Rounding {
    /// Below: the greatest code whose place is not above the number, towards minus infinity for negative numbers too.
    Down,
    /// Above: the least code whose place is not below the number.
    Up,
}
