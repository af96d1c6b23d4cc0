//! What the ruled scale works out.
ghost use Rattle.std.specs.Prelude.{◌≡◌, suc, pos, negsuc, Some, None, MatchResult, IfOk, refl};
ghost use Rattle.scale.specs.Faults.{scale_refusal, division_refusal};
ghost use Rattle.scale.specs.Ruled.{furthest, ruled_marks, on_ruled};
ghost use Rattle.scale.specs.Placing;
ghost use Rattle.scale.specs.Rule.{ruled_rising};
ghost use Rattle.std.proofs.Common.{arith};
ghost use Rattle.std.proofs.lemmas.Int.{ints};

use super::RuledScale;
use crate::OrderedScale;
use crate::faults::ScaleFault;
use crate::marks::MarkedScale;
use crate::rounding::Rounding;
use crate::whole::clamped;

impl RuledScale {
    /// The scale with the division, or a refusal of a division of 0 or over 65,536.
    pub fn new(division: u32) -> Result<RuledScale, ScaleFault>
        ensures refusal { MatchResult result (λ _. division_refusal division ≡ None) (λ f. division_refusal division ≡ Some (scale_refusal f)) }
        ensures division { IfOk result (λ s. s.division ≡ division) }
    {
        if (1..=65536).contains(&division) {
            Ok(RuledScale { division })
        } else {
            Err(ScaleFault::Division(division))
        }
    }

    // The greatest code with a number.
    fn limit(&self) -> i64
        ensures { result ≡ pos (furthest self.now.division) }
    {
        2147483647 * i64::from(self.division)
    }
}

impl MarkedScale for RuledScale {
    ghost marks = { ruled_marks };

    ghost placed = { λ _. refl };

    fn parts(&self) -> u32 {
        self.division
    }

    fn count(&self, code: i64) -> Option<i64> {
        let limit = self.limit();
        (-limit..=limit).contains(&code).then_some(code)
    }

    fn fitted(&self, rounding: Rounding, count: i128) -> i64 {
        match rounding {
            Rounding::Down => clamped(count, self.lowest(), self.limit()),
            Rounding::Up => clamped(count, -self.limit(), self.highest()),
        }
    }
}

// The told codes stand in each scale: one impl for all scales of marks would be no shorter, since it needs a member for the last code and laws that tie it to the marks.
impl OrderedScale for RuledScale {
    ghost place = { on_ruled };

    ghost low = { λ s. negsuc (furthest s.division) };

    ghost origin = { λ _. pos 0 };

    ghost high = { λ s. pos (suc (furthest s.division)) };

    ghost ordered = { λ s. Placing.ordered (ruled_marks s) (pos 0) (ruled_rising s) };

    ghost told = { λ s. Placing.told (ruled_marks s) (pos 0) (ruled_rising s) _ _ (omega (arith, ints)) (omega (arith, ints)) };

    fn lowest(&self) -> i64 {
        -self.limit() - 1
    }

    fn zero(&self) -> i64 {
        0
    }

    fn highest(&self) -> i64 {
        self.limit() + 1
    }
}
