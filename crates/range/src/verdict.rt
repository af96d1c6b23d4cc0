//! Verdicts.
ghost use Rattle.std.specs.Prelude.{◌≡◌, Some, true, false, not, ◌&&◌, ◌||◌};
ghost use Rattle.range.specs.Truths.{allowed, Allows, Exactly, OfTruth, OfTruths, verdict_name};

use std::fmt;

/// A set of truths.
#[derive(Clone, Copy, PartialEq, Eq, Debug)]
pub enum Verdict {
    /// True alone.
    Certain,
    /// False alone.
    Impossible,
    /// Both truths.
    Open,
    /// No truth.
    Void,
}

impl Verdict {
    /// The verdict that allows true and false just as told.
    pub fn of(can_be_true: bool, can_be_false: bool) -> Verdict
        ensures truth { allowed result true ≡ can_be_true }
        ensures untruth { allowed result false ≡ can_be_false }
    {
        match (can_be_true, can_be_false) {
            (true, true) => Verdict::Open,
            (true, false) => Verdict::Certain,
            (false, true) => Verdict::Impossible,
            (false, false) => Verdict::Void,
        }
    }

    /// The truths of `x and y`.
    pub fn and(self, other: Verdict) -> Verdict
        ensures { Exactly (OfTruths ◌&&◌ (Allows self) (Allows other)) result }
    {
        match (self, other) {
            (Verdict::Certain, v) | (v, Verdict::Certain) => v,
            (Verdict::Void, _) | (_, Verdict::Void) => Verdict::Void,
            (Verdict::Impossible, _) | (_, Verdict::Impossible) => Verdict::Impossible,
            (Verdict::Open, Verdict::Open) => Verdict::Open,
        }
    }

    /// The truths of `x or y`.
    pub fn or(self, other: Verdict) -> Verdict
        ensures { Exactly (OfTruths ◌||◌ (Allows self) (Allows other)) result }
    {
        match (self, other) {
            (Verdict::Impossible, v) | (v, Verdict::Impossible) => v,
            (Verdict::Void, _) | (_, Verdict::Void) => Verdict::Void,
            (Verdict::Certain, _) | (_, Verdict::Certain) => Verdict::Certain,
            (Verdict::Open, Verdict::Open) => Verdict::Open,
        }
    }

    /// The truths of `not x`.
    #[tactic(auto, using(crate::proofs::Connecting::not_open))]
    pub fn not(self) -> Verdict
        ensures { Exactly (OfTruth not (Allows self)) result }
    {
        match self {
            Verdict::Void => Verdict::Void,
            Verdict::Certain => Verdict::Impossible,
            Verdict::Impossible => Verdict::Certain,
            Verdict::Open => Verdict::Open,
        }
    }
}

/// Its name.
impl fmt::Display for Verdict {
    ghost output = { λ v. Some (verdict_name v) };

    fn fmt<W: fmt::Write>(&self, f: &mut fmt::Formatter<W>) -> fmt::Result {
        f.write_str(match self {
            Verdict::Certain => "certain",
            Verdict::Impossible => "impossible",
            Verdict::Open => "open",
            Verdict::Void => "void",
        })
    }
}
