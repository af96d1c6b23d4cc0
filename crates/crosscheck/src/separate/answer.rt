//! What a call answers, in a form into which both sides can be brought.
use super::truths::Truths;

/// The layers that refuse.
#[derive(Clone, Copy, PartialEq, Eq, Debug)]
pub enum Layer {
    Filing,
    Clearing,
    Pad,
    Scale,
    Other,
}

/// A refusal as it is told: the layer, the number of the rule and the place.
// a number, to be compared with the pad's
#[derive(Clone, Copy, PartialEq, Eq, Debug)]
pub struct Refused {
    pub layer: Layer,
    pub number: u8,
    pub place: u64,
}

/// What a call shows that was taken.
#[derive(Clone, Copy, PartialEq, Eq, Debug)]
pub enum Shown {
    /// The call has nothing to show.
    Nothing,
    /// The line is blank.
    Blank,
    /// The codes of the line's ends.
    Ends(i64, i64),
    /// The truths that the flag allows.
    Truths(Truths),
    /// The slots were not left as they should be.
    Untidy,
}

/// The answer of one call.
pub type Answer = Result<Shown, Refused>;
