//! Scales: which places the codes have, and arithmetic on codes rounded below and above.
#![tactic(auto)]

ghost use Rattle.std.specs.Prelude.{◌≡◌, ℤ, None};
ghost use Rattle.number.specs.Place.{Place};
ghost use Rattle.scale.specs.Scale.{Ordered, Told};
ghost use Rattle.scale.specs.Rounded.{Rounded, Sum, Difference, Product, Quotient, Written};

mod faults;
mod marks;
mod rounding;
mod ruled;
mod sliding;
mod whole;

pub use faults::ScaleFault;
use number::Fraction;
pub use rounding::Rounding;
pub use ruled::RuledScale;
pub use sliding::SlidingScale;

/// An ordered scale gives every signed 64-bit code a place: minus infinity, a number or plus infinity. Code above a scale knows a code only by its place.
pub trait OrderedScale {
    /// The place of each code.
    ghost place: { Self → ℤ → Place };

    /// The greatest code for minus infinity, the code of 0, and the least code for plus infinity.
    ghost low: { Self → ℤ };

    ghost origin: { Self → ℤ };

    ghost high: { Self → ℤ };

    /// The greatest code for minus infinity.
    fn lowest(&self) -> i64
        ensures { result ≡ low self.now };

    /// The code of 0.
    fn zero(&self) -> i64
        ensures { result ≡ origin self.now };

    /// The least code for plus infinity.
    fn highest(&self) -> i64
        ensures { result ≡ high self.now };

    /// The code of a result that is no number: the told infinite one below or above.
    final fn infinite(&self, rounding: Rounding) -> i64
        ensures { Rounded (place self.now) rounding None result }
    {
        match rounding {
            Rounding::Down => self.lowest(),
            Rounding::Up => self.highest(),
        }
    }

    /// A lower code never has the higher place, and two codes with numbers never have the same number.
    ghost ordered: { (s : Self) → Ordered (place s) };

    ghost told: { (s : Self) → Told (place s) (low s) (origin s) (high s) };
}

/// An arithmetic scale also works out sums, differences, products and quotients of two codes, and fractions, each rounded below or above.
/// Where an operand's place is infinite, the divisor is 0 or a fraction has no value, below is the greatest code for minus infinity and above the least for plus infinity.
// rounding and operands are parameters of each, as a sum reads; a struct of them would be taken apart in each
pub trait ArithmeticScale: OrderedScale {
    fn sum(&self, rounding: Rounding, a: i64, b: i64) -> i64
        ensures { Sum (Self.OrderedScale.place self.now) rounding a b result };

    fn difference(&self, rounding: Rounding, a: i64, b: i64) -> i64
        ensures { Difference (Self.OrderedScale.place self.now) rounding a b result };

    fn product(&self, rounding: Rounding, a: i64, b: i64) -> i64
        ensures { Product (Self.OrderedScale.place self.now) rounding a b result };

    fn quotient(&self, rounding: Rounding, a: i64, b: i64) -> i64
        ensures { Quotient (Self.OrderedScale.place self.now) rounding a b result };

    fn fraction(&self, rounding: Rounding, f: Fraction) -> i64
        ensures { Written (Self.OrderedScale.place self.now) rounding f result };
}
