//! Entries: what is entered into a line.
ghost use Rattle.std.specs.Prelude.{◌≡◌, true, false, Some};
ghost use Rattle.number.specs.Number.{Number};
ghost use Rattle.number.specs.Place.{Inhabited};
ghost use Rattle.scale.specs.Rounded.{Rounded};
ghost use Rattle.range.specs.Bounds.{Within, bound_value};
ghost use Rattle.range.specs.Hull.{Hull};
ghost use Rattle.range.specs.Entries.{Admitted};

use crate::range::Range;
use number::Fraction;
use scale::{ArithmeticScale, Rounding};

/// What is entered: blank, or two bounds, each a fraction or absent; an absent bound leaves that side unbounded.
// no `Option` of bounds: a blank is something that is entered, and an absent bound is `None` already
#[derive(Clone, Copy, PartialEq, Eq, Debug)]
pub enum Entry {
    Blank,
    Bounds(Option<Fraction>, Option<Fraction>),
}

// Whether some number lies from the one fraction to the other.
fn spans(lower: Fraction, upper: Fraction) -> bool
    ensures some { result ≡ true → Inhabited (Within (Some lower) (Some upper)) }
    ensures empty { result ≡ false → (x : Number) → Within (Some lower) (Some upper) x → ⊥ }
{
    lower.has_value() && upper.has_value() && !lower.is_above(upper)
}

// Whether some number lies within the bounds.
// Here and below the bounds are two parameters, as the variant has them.
#[tactic(auto, using(crate::proofs::Bounding::free_admits))]
fn admits(lower: Option<Fraction>, upper: Option<Fraction>) -> bool
    ensures some { result ≡ true → Inhabited (Within lower upper) }
    ensures empty { result ≡ false → (x : Number) → Within lower upper x → ⊥ }
{
    match (lower, upper) {
        (Some(l), Some(u)) => spans(l, u),
        (Some(l), None) => l.has_value(),
        (None, Some(u)) => u.has_value(),
        (None, None) => true,
    }
}

// The code of a bound: a lower one rounded below, an upper one above; an absent one is unbounded.
fn code<S: ArithmeticScale>(scale: &S, rounding: Rounding, bound: Option<Fraction>) -> i64
    ensures { Rounded (S.place scale.now) rounding (bound_value bound) result }
{
    match bound {
        Some(f) => scale.fraction(rounding, f),
        None => scale.infinite(rounding),
    }
}

impl Entry {
    /// The hull of the numbers within the bounds.
    pub fn hull<S: ArithmeticScale>(self, scale: &S) -> Range
        ensures { Hull (S.place scale.now) (Admitted self) result }
    {
        match self {
            Entry::Bounds(lower, upper) if admits(lower, upper) => Range {
                lower: code(scale, Rounding::Down, lower),
                upper: code(scale, Rounding::Up, upper),
            },
            Entry::Blank | Entry::Bounds(_, _) => Range::blank(),
        }
    }
}
