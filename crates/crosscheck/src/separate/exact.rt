//! Exact numbers, and the ends of ranges.

/// `top / bottom`, where `bottom` is above 0.
/// The places of codes have tops below 2^47 and bottoms of at most 2^16, so after one operation a top is below 2^94 and a bottom below 2^63, and no top above 2^64 stands over a bottom above 2^32: cross products stay below 2^127, and nothing wraps.
#[derive(Clone, Copy)]
pub struct Exact {
    pub top: i128,
    pub bottom: i128,
}

impl Exact {
    pub fn zero() -> Exact {
        Exact { top: 0, bottom: 1 }
    }

    // no Ord: products wrap at some values of the fields, and there its laws fail
    pub fn is_below(self, other: Exact) -> bool {
        self.top.wrapping_mul(other.bottom) < other.top.wrapping_mul(self.bottom)
    }

    pub fn plus(self, other: Exact) -> Exact {
        let first = self.top.wrapping_mul(other.bottom);
        let second = other.top.wrapping_mul(self.bottom);
        Exact {
            top: first.wrapping_add(second),
            bottom: self.bottom.wrapping_mul(other.bottom),
        }
    }

    pub fn times(self, other: Exact) -> Exact {
        Exact {
            top: self.top.wrapping_mul(other.top),
            bottom: self.bottom.wrapping_mul(other.bottom),
        }
    }

    pub fn negated(self) -> Exact {
        Exact {
            top: self.top.wrapping_neg(),
            bottom: self.bottom,
        }
    }

    /// One over the number, which is not 0.
    pub fn inverse(self) -> Exact {
        if self.top < 0 {
            Exact {
                top: self.bottom.wrapping_neg(),
                bottom: self.top.wrapping_neg(),
            }
        } else {
            Exact {
                top: self.bottom,
                bottom: self.top,
            }
        }
    }
}

/// An end of a range: a number, or an infinity where that side has no bound.
#[derive(Clone, Copy)]
pub enum End {
    Minus,
    Number(Exact),
    Plus,
}

impl End {
    pub fn zero() -> End {
        End::Number(Exact::zero())
    }

    // no Ord, since the numbers have none
    pub fn is_below(self, other: End) -> bool {
        match (self, other) {
            (End::Number(a), End::Number(b)) => a.is_below(b),
            (End::Minus, End::Minus) => false,
            (End::Minus, _) => true,
            (End::Number(_), End::Plus) => true,
            _ => false,
        }
    }

    /// The lower of the two.
    pub fn least(self, other: End) -> End {
        if other.is_below(self) { other } else { self }
    }

    /// The higher of the two.
    pub fn most(self, other: End) -> End {
        if self.is_below(other) { other } else { self }
    }

    pub fn negated(self) -> End {
        match self {
            End::Minus => End::Plus,
            End::Number(a) => End::Number(a.negated()),
            End::Plus => End::Minus,
        }
    }

    /// The sum of two ends of the same side, of which an infinite one prevails.
    pub fn plus(self, other: End) -> End {
        match (self, other) {
            (End::Number(a), End::Number(b)) => End::Number(a.plus(b)),
            (End::Number(_), infinite) => infinite,
            (infinite, _) => infinite,
        }
    }

    // -1, 0 or 1: a number, since signs are multiplied.
    fn sign(self) -> i128 {
        match self {
            End::Minus => -1,
            End::Number(a) => a.top.signum(),
            End::Plus => 1,
        }
    }

    /// The product, where 0 times an infinity is 0: an infinity only stands for numbers without bound.
    pub fn times(self, other: End) -> End {
        if let (End::Number(a), End::Number(b)) = (self, other) {
            return End::Number(a.times(b));
        }
        match self.sign().wrapping_mul(other.sign()) {
            0 => End::zero(),
            1 => End::Plus,
            _ => End::Minus,
        }
    }
}
