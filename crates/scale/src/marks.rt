//! Arithmetic on scales of marks, once for all of them: a code becomes a count of parts, the counts are worked out exactly and rounded to a whole count, and that becomes a code again.
ghost use Rattle.std.specs.Prelude.{◌≡◌, Some};
ghost use Rattle.std.specs.Option.{option_map};
ghost use Rattle.scale.specs.Marked.{Marks, marked, counted, Counted, CountedBoth};
ghost use Rattle.scale.specs.Rounded.{Rounded};

use crate::rounding::Rounding;
use crate::whole::Product;
use crate::{ArithmeticScale, OrderedScale};
use number::Fraction;

pub(crate) trait MarkedScale: OrderedScale {
    ghost marks: { Self → Marks };

    // How many parts make 1.
    fn parts(&self) -> u32
        ensures { result ≡ (marks self.now).parts };

    // How many parts the code counts; none where its place is infinite.
    fn count(&self, code: i64) -> Option<i64>
        ensures { Counted (marks self.now) code result };

    // The code of so many parts, rounded.
    fn fitted(&self, rounding: Rounding, count: i128) -> i64
        ensures { Rounded (marked (marks self.now)) rounding (Some (counted (marks self.now) count)) result };

    // The counts of two codes; none where either place is infinite.
    final fn counts(&self, a: i64, b: i64) -> Option<(i64, i64)>
        ensures { CountedBoth (marks self.now) a b result }
    {
        self.count(a).zip(self.count(b))
    }

    // The code of so many parts, rounded; of none, for a result that is no number.
    final fn rounded(&self, rounding: Rounding, count: Option<i128>) -> i64
        ensures { Rounded (marked (marks self.now)) rounding (option_map (counted (marks self.now)) count) result }
    {
        match count {
            Some(n) => self.fitted(rounding, n),
            None => self.infinite(rounding),
        }
    }

    /// The marks give the places.
    ghost placed: { (s : Self) → Self.place s ≡ marked (marks s) };
}

impl<M: MarkedScale> ArithmeticScale for M {
    fn sum(&self, rounding: Rounding, a: i64, b: i64) -> i64 {
        let count = self
            .counts(a, b)
            .map(|(x, y)| i128::from(x) + i128::from(y));
        self.rounded(rounding, count)
    }

    fn difference(&self, rounding: Rounding, a: i64, b: i64) -> i64 {
        let count = self
            .counts(a, b)
            .map(|(x, y)| i128::from(x) - i128::from(y));
        self.rounded(rounding, count)
    }

    fn product(&self, rounding: Rounding, a: i64, b: i64) -> i64 {
        let parts = u64::from(self.parts());
        let count = self
            .counts(a, b)
            .map(|(x, y)| Product::of(x, y).divided(rounding, parts));
        self.rounded(rounding, count)
    }

    // never inlined, so that what asks for quotients stays small enough to be inlined where it is used
    #[inline(never)]
    fn quotient(&self, rounding: Rounding, a: i64, b: i64) -> i64 {
        let parts = i64::from(self.parts());
        let count = self
            .counts(a, b)
            .and_then(|(x, y)| Product::of(x, parts).divided_signed(rounding, y));
        self.rounded(rounding, count)
    }

    fn fraction(&self, rounding: Rounding, f: Fraction) -> i64 {
        let p = Product::of(i64::from(f.p), i64::from(self.parts()));
        let count = f.has_value().then(|| p.divided(rounding, u64::from(f.q)));
        self.rounded(rounding, count)
    }
}
