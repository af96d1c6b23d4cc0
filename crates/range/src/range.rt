//! Ranges.
ghost use Rattle.std.specs.Prelude.{◌≡◌, true, false, ℤ};
ghost use Rattle.number.specs.Number.{Number};
ghost use Rattle.number.specs.Place.{Place, Inhabited};
ghost use Rattle.scale.specs.Scale.{Ordered};
ghost use Rattle.range.specs.Held.{Holds, nothing};
ghost use Rattle.range.specs.Hull.{Hull};

use scale::OrderedScale;

/// All numbers between the places of two codes, the places included; an infinity is never one of them. Any two codes may stand as ends, and stand for blank if no number lies between.
#[derive(Clone, Copy, PartialEq, Eq, Debug)]
pub struct Range {
    pub lower: i64,
    pub upper: i64,
}

impl Range {
    /// The range with these two codes as ends.
    pub fn new(lower: i64, upper: i64) -> Range
        ensures low { result.lower ≡ lower }
        ensures high { result.upper ≡ upper }
    {
        Range { lower, upper }
    }

    /// The blank that every operation gives. It holds no number on any ordered scale.
    #[tactic(auto, using(crate::proofs::Codes::nothing_holds))]
    pub fn blank() -> Range
        ensures value { result ≡ nothing }
        ensures none { (p : ℤ → Place) → Ordered p → (x : Number) → Holds p result x → ⊥ }
    {
        Range {
            lower: i64::MAX,
            upper: i64::MIN,
        }
    }

    /// Whether the range holds no number on the scale.
    pub fn is_blank<S: OrderedScale>(self, scale: &S) -> bool
        ensures empty { result ≡ true → (x : Number) → Holds (S.place scale.now) self x → ⊥ }
        ensures some { result ≡ false → Inhabited (Holds (S.place scale.now) self) }
    {
        scale.highest() <= self.lower || self.upper <= scale.lowest() || self.upper < self.lower
    }

    /// The tightest range round what the range holds: the hull of its numbers.
    pub fn copy<S: OrderedScale>(self, scale: &S) -> Range
        ensures hull { Hull (S.place scale.now) (Holds (S.place scale.now) self) result }
        ensures alone { (q : Range) → Hull (S.place scale.now) (Holds (S.place scale.now) self) q → q ≡ result }
        ensures again { (p : ℤ → Place) (x : Range) → Hull (S.place scale.now) (Holds p x) self → result ≡ self }
    {
        if self.is_blank(scale) {
            return Range::blank();
        }
        Range {
            lower: self.lower.max(scale.lowest()),
            upper: self.upper.min(scale.highest()),
        }
    }
}

// Whether one of two ranges is blank, so that nothing comes of the two.
pub(crate) fn any_blank<S: OrderedScale>(scale: &S, x: Range, y: Range) -> bool
    ensures empty { result ≡ true → (u v : Number) → Holds (S.place scale.now) x u → Holds (S.place scale.now) y v → ⊥ }
    ensures first { result ≡ false → Inhabited (Holds (S.place scale.now) x) }
    ensures second { result ≡ false → Inhabited (Holds (S.place scale.now) y) }
{
    x.is_blank(scale) || y.is_blank(scale)
}
