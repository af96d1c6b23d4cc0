//! Numbers as fractions of two whole numbers, exactly. The mathematics is in `specs/` and `proofs/`; here is the type in which fractions are written.
#![tactic(auto)]

ghost use Rattle.std.specs.Prelude.{◌≡◌, pos, ◌*ℤ◌, is_some};
ghost use Rattle.number.specs.Fraction.{value, higher};
ghost use Rattle.number.specs.Bytes.{fraction_at};

/// The greatest lower part of a fraction that has a value.
const LAST: u32 = 2147483647;

/// The fraction p / q as it is written. It has a value where q is from 1 to 2,147,483,647.
#[derive(Clone, Copy, PartialEq, Eq, Debug)]
pub struct Fraction {
    pub p: i32,
    pub q: u32,
}

// p times q; every such product fits.
fn multiplied(p: i32, q: u32) -> i64
    ensures { result ≡ p *ℤ pos q }
{
    i64::from(p) * i64::from(q)
}

impl Fraction {
    /// The fraction as it stands in a file or an input: p, then q, each with its lowest byte first.
    pub fn from_le_bytes(bytes: [u8; 8]) -> Fraction
        ensures { result ≡ fraction_at bytes 0 }
    {
        let [a, b, c, d, e, f, g, h] = bytes;
        Fraction {
            p: i32::from_le_bytes([a, b, c, d]),
            q: u32::from_le_bytes([e, f, g, h]),
        }
    }

    /// Whether the fraction has a value.
    pub fn has_value(self) -> bool
        ensures { result ≡ is_some (value self) }
    {
        1 <= self.q && self.q <= LAST
    }

    /// Whether both fractions have values and this one's is the higher, compared exactly.
    // not by `PartialOrd`: `==` compares how a fraction is written, and an order by value does not agree with it
    pub fn is_above(self, other: Fraction) -> bool
        ensures { result ≡ higher (value self) (value other) }
    {
        self.has_value()
            && other.has_value()
            && multiplied(other.p, self.q) < multiplied(self.p, other.q)
    }
}
