//! Products and quotients of whole numbers, exact or rounded.
ghost use Rattle.std.specs.Prelude.{◌≡◌, ◌^◌, ◌<◌, pos, ◌*ℤ◌, neg_ℤ, ◌≤ℤ◌, ◌↔◌, IsNone, IfSome};
ghost use Rattle.std.specs.Int.{int_max, int_min};
ghost use Rattle.scale.specs.Quotient.{Whole, Signed};

use crate::rounding::Rounding;

// The exact product of two counts. It leaves room for its negation, and for a divisor on top.
#[derive(Clone, Copy)]
pub(crate) struct Product {
    value: i128,
    ghost least: { neg_ℤ (pos (2 ^ 126)) ≤ℤ value },
    ghost most: { value ≤ℤ pos (2 ^ 126) },
}

impl Product {
    pub(crate) fn of(a: i64, b: i64) -> Product
        ensures { result.value ≡ a *ℤ b }
    {
        Product {
            value: i128::from(a) * i128::from(b),
        }
    }

    fn negated(self) -> Product
        ensures { result.value ≡ neg_ℤ self.value }
    {
        Product { value: -self.value }
    }

    // The product / d, rounded.
    pub(crate) fn divided(self, rounding: Rounding, d: u64) -> i128
        requires { 0 < d }
        ensures { Whole rounding self.value d result }
    {
        let d = i128::from(d);
        // A division in each arm, which is faster than one for both.
        match rounding {
            Rounding::Down => self.value.div_euclid(d),
            Rounding::Up => (self.value + (d - 1)).div_euclid(d),
        }
    }

    // The same for a divisor of either sign; none for a divisor of 0.
    pub(crate) fn divided_signed(self, rounding: Rounding, d: i64) -> Option<i128>
        ensures none { IsNone result ↔ (d ≡ pos 0) }
        ensures some { IfSome result (Signed rounding self.value d) }
    {
        if d == 0 {
            return None;
        }
        let n = if d < 0 { self.negated() } else { self };
        Some(n.divided(rounding, d.unsigned_abs()))
    }
}

// The one of `low..=high` nearest to n.
pub(crate) fn clamped(n: i128, low: i64, high: i64) -> i64
    requires { low ≤ℤ high }
    ensures { result ≡ int_max low (int_min n high) }
{
    n.clamp(i128::from(low), i128::from(high)) as i64
}
