//! Verdicts as sets of truths.
ghost use Rattle.std.specs.Prelude.{Some};
ghost use Rattle.crosscheck.specs.Names.{truths_name};

use super::span::{Held, meet};
use std::fmt;

/// Whether true occurs, and whether false does.
// the two flags are the set itself
#[derive(Clone, Copy, PartialEq, Eq, PartialOrd, Ord, Debug)]
pub struct Truths {
    pub yes: bool,
    pub no: bool,
}

impl Truths {
    pub const NONE: Truths = Truths {
        yes: false,
        no: false,
    };

    pub const ALL: [Truths; 4] = [
        Truths::NONE,
        Truths {
            yes: false,
            no: true,
        },
        Truths {
            yes: true,
            no: false,
        },
        Truths {
            yes: true,
            no: true,
        },
    ];

    fn allows(self, truth: bool) -> bool {
        if truth { self.yes } else { self.no }
    }

    fn with(self, truth: bool) -> Truths {
        Truths {
            yes: self.yes || truth,
            no: self.no || !truth,
        }
    }
}

impl fmt::Display for Truths {
    ghost output = { λ t. Some (truths_name t) };

    fn fmt<W: fmt::Write>(&self, f: &mut fmt::Formatter<W>) -> fmt::Result {
        f.write_str(match (self.yes, self.no) {
            (false, false) => "void",
            (false, true) => "impossible",
            (true, false) => "certain",
            (true, true) => "open",
        })
    }
}

// What the operation can make of a truth of each.
fn combined<F: Fn(bool, bool) -> bool>(x: Truths, y: Truths, operation: F) -> Truths
    requires { F.IsAlwaysCallable operation }
{
    let mut truths = Truths::NONE;
    for a in [false, true] {
        for b in [false, true] {
            if x.allows(a) && y.allows(b) {
                truths = truths.with(operation(a, b));
            }
        }
    }
    truths
}

/// The truths of `a and b`.
pub fn both(x: Truths, y: Truths) -> Truths {
    combined(x, y, |a, b| a && b)
}

/// The truths of `a or b`.
pub fn either(x: Truths, y: Truths) -> Truths {
    combined(x, y, |a, b| a || b)
}

/// The truths of `not a`.
pub fn opposite(x: Truths) -> Truths {
    Truths {
        yes: x.no,
        no: x.yes,
    }
}

/// The truths of `x < y`: the lowest of x is the best to make it true, the highest to make it false.
pub fn less(x: Held, y: Held) -> Truths {
    let (Some(x), Some(y)) = (x, y) else {
        return Truths::NONE;
    };
    Truths {
        yes: x.lower.is_below(y.upper),
        no: !x.upper.is_below(y.lower),
    }
}

/// The truths of `x ≤ y`: those of `not y < x`.
pub fn at_most(x: Held, y: Held) -> Truths {
    opposite(less(y, x))
}

/// The truths of `x = y`: they can be the same where the ranges meet, and can differ unless both are one number.
pub fn equal(x: Held, y: Held) -> Truths {
    let (Some(a), Some(b)) = (x, y) else {
        return Truths::NONE;
    };
    let lowest = a.lower.least(b.lower);
    let highest = a.upper.most(b.upper);
    Truths {
        yes: meet(x, y).is_some(),
        no: lowest.is_below(highest),
    }
}
