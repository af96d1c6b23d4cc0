//! The sliding scale: fine marks near 0, which double in width from one block of 4,096 codes to the next.
ghost use Rattle.std.specs.Prelude.{◌≡◌, ◌+◌, ◌^◌, ◌<◌, ◌≤◌, pos, negsuc, refl};
ghost use Rattle.number.specs.Place.{at};
ghost use Rattle.scale.specs.Scale.{Floor};
ghost use Rattle.scale.specs.Marked.{counted};
ghost use Rattle.scale.specs.Sliding.{steps, sliding_marks, sliding};
ghost use Rattle.scale.specs.Placing;
ghost use Rattle.scale.specs.Steps.{sliding_rising};
ghost use Rattle.std.proofs.Common.{arith};
ghost use Rattle.std.proofs.lemmas.Int.{ints};

use crate::OrderedScale;
use crate::marks::MarkedScale;
use crate::rounding::Rounding;
use crate::whole::clamped;

// The greatest code with a number.
const LAST: i64 = 81919;

// A count of 4096ths beyond every number of the scale.
const BEYOND: i64 = 2147483648;

/// The sliding scale. The codes from -81,919 to 81,919 have numbers. From 0 to 4,095 the code c has the place c / 4096;
/// from 4,096 up, with g = c div 4096 and r = c mod 4096, it has the place (4096 + r) 2^(g - 1) / 4096. Negative codes mirror this.
#[derive(Clone, Copy)]
pub struct SlidingScale;

// The count of 4096ths at a code from 0 up.
fn steps_at(code: u64) -> u64
    requires { code ≤ 81919 }
    ensures value { result ≡ steps code }
    ensures small { result < 2 ^ 31 }
{
    if code < 4096 {
        code
    } else {
        (4096 + code % 4096) << (code / 4096 - 1)
    }
}

// The greatest code that counts no more than n, as if the blocks went on for ever.
fn code_of(n: u64) -> u64
    ensures not_above { steps result ≤ n }
    ensures next { n < steps (result + 1) }
    ensures small { result < 2 ^ 19 }
{
    if n < 4096 {
        return n;
    }
    let shift = n.ilog2() - 12;
    4096 * u64::from(shift) + (n >> shift)
}

// The greatest code that counts no more than n, among the codes with numbers and the one below them.
fn floor_code(n: i64) -> i64
    ensures { Floor sliding (at (counted sliding_marks n)) result }
{
    if n >= 0 {
        (code_of(n as u64) as i64).min(LAST)
    } else {
        (-1 - code_of((-1 - n) as u64) as i64).max(-LAST - 1)
    }
}

impl MarkedScale for SlidingScale {
    ghost marks = { λ _. sliding_marks };

    ghost placed = { λ _. refl };

    fn parts(&self) -> u32 {
        4096
    }

    fn count(&self, code: i64) -> Option<i64> {
        if !(-LAST..=LAST).contains(&code) {
            return None;
        }
        let steps = steps_at(code.unsigned_abs()) as i64;
        Some(if code < 0 { -steps } else { steps })
    }

    fn fitted(&self, rounding: Rounding, count: i128) -> i64 {
        let n = clamped(count, -BEYOND, BEYOND);
        match rounding {
            Rounding::Down => floor_code(n),
            Rounding::Up => -floor_code(-n),
        }
    }
}

// The told codes stand in each scale: one impl for all scales of marks would be no shorter, since it needs a member for the last code and laws that tie it to the marks.
impl OrderedScale for SlidingScale {
    ghost place = { λ _. sliding };

    ghost low = { λ _. negsuc 81919 };

    ghost origin = { λ _. pos 0 };

    ghost high = { λ _. pos 81920 };

    ghost ordered = { λ s. Placing.ordered sliding_marks (pos 0) sliding_rising };

    ghost told = { λ s. Placing.told sliding_marks (pos 0) sliding_rising _ _ (omega (arith, ints)) (omega (arith, ints)) };

    fn lowest(&self) -> i64 {
        -LAST - 1
    }

    fn zero(&self) -> i64 {
        0
    }

    fn highest(&self) -> i64 {
        LAST + 1
    }
}
