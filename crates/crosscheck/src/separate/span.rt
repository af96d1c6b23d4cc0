//! Ranges by their exact ends, and what the operations make of them before rounding.
use super::exact::{End, Exact};
use super::marking::Marking;
use super::truths::Truths;

/// All numbers from the lower end to the upper one. There is always one: the lower end is not plus infinity, the upper not minus infinity, and they do not cross.
#[derive(Clone, Copy)]
pub struct Span {
    pub lower: End,
    pub upper: End,
}

/// A range, or nothing where it is blank.
pub type Held = Option<Span>;

impl Span {
    pub fn point(number: Exact) -> Span {
        Span {
            lower: End::Number(number),
            upper: End::Number(number),
        }
    }

    /// The codes of the tightest range round it.
    pub fn codes(self, marking: Marking) -> (i64, i64) {
        (marking.below(self.lower), marking.above(self.upper))
    }

    // From the least to the greatest of the products of an end of each.
    fn corners(self, other: Span) -> Span {
        let a = self.lower.times(other.lower);
        let b = self.lower.times(other.upper);
        let c = self.upper.times(other.lower);
        let d = self.upper.times(other.upper);
        Span {
            lower: a.least(b).least(c.least(d)),
            upper: a.most(b).most(c.most(d)),
        }
    }

    // One over each of its numbers above 0.
    fn inverses_above(self) -> Held {
        if !End::zero().is_below(self.upper) {
            return None;
        }
        let lower = match self.upper {
            End::Number(a) => End::Number(a.inverse()),
            _ => End::zero(),
        };
        // near 0 there is no bound
        let upper = match self.lower {
            End::Number(a) if a.top > 0 => End::Number(a.inverse()),
            _ => End::Plus,
        };
        Some(Span { lower, upper })
    }

    fn negated(self) -> Span {
        Span {
            lower: self.upper.negated(),
            upper: self.lower.negated(),
        }
    }

    // The quotients by its numbers above 0 of the numbers of x.
    fn quotients_above(self, x: Span) -> Held {
        Some(x.corners(self.inverses_above()?))
    }
}

/// The tightest range that the scale can write round it.
pub fn rounded(marking: Marking, exact: Held) -> Held {
    let (lower, upper) = exact?.codes(marking);
    Some(Span {
        lower: marking.place(lower),
        upper: marking.place(upper),
    })
}

pub fn negation(y: Held) -> Held {
    Some(y?.negated())
}

// The ends that the operation makes of those of each side.
fn by_ends<F: Fn(End, End) -> End>(x: Held, y: Held, operation: F) -> Held
    requires { F.IsAlwaysCallable operation }
{
    let (x, y) = (x?, y?);
    Some(Span {
        lower: operation(x.lower, y.lower),
        upper: operation(x.upper, y.upper),
    })
}

pub fn sum(x: Held, y: Held) -> Held {
    by_ends(x, y, End::plus)
}

pub fn difference(x: Held, y: Held) -> Held {
    sum(x, negation(y))
}

pub fn product(x: Held, y: Held) -> Held {
    Some(x?.corners(y?))
}

/// The quotients by the negative numbers of y, and those by the positive ones.
pub fn parted(x: Held, y: Held) -> (Held, Held) {
    let (Some(x), Some(y)) = (x, y) else {
        return (None, None);
    };
    // x / y is -x / -y
    let by_negative = y.negated().quotients_above(x.negated());
    (by_negative, y.quotients_above(x))
}

pub fn quotient(x: Held, y: Held) -> Held {
    let (by_negative, by_positive) = parted(x, y);
    join(by_negative, by_positive)
}

/// The products of two numbers of y, chosen apart.
pub fn square(y: Held) -> Held {
    product(y, y)
}

pub fn lesser(x: Held, y: Held) -> Held {
    by_ends(x, y, End::least)
}

pub fn greater(x: Held, y: Held) -> Held {
    by_ends(x, y, End::most)
}

pub fn join(x: Held, y: Held) -> Held {
    match (x, y) {
        (Some(x), Some(y)) => Some(Span {
            lower: x.lower.least(y.lower),
            upper: x.upper.most(y.upper),
        }),
        (None, y) => y,
        (x, None) => x,
    }
}

pub fn meet(x: Held, y: Held) -> Held {
    let (x, y) = (x?, y?);
    let lower = x.lower.most(y.lower);
    let upper = x.upper.least(y.upper);
    if upper.is_below(lower) {
        return None;
    }
    Some(Span { lower, upper })
}

pub fn pick(v: Truths, x: Held, y: Held) -> Held {
    let if_true = if v.yes { x } else { None };
    let if_false = if v.no { y } else { None };
    join(if_true, if_false)
}
