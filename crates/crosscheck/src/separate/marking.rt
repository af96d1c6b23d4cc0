//! The places of codes on both scales, and rounding by search among them.
use super::exact::{End, Exact};

/// A scale: the ruled one with its division, or the sliding one.
#[derive(Clone, Copy)]
pub enum Marking {
    Ruled(u32),
    Sliding,
}

// How many 4096ths the code, from 0 up, counts on the sliding scale.
fn sliding_count(code: i64) -> i64 {
    if code < 4096 {
        return code;
    }
    let mut count = (code % 4096).wrapping_add(4096);
    for _ in 1..(code / 4096) {
        count = count.wrapping_mul(2);
    }
    count
}

// The number of a code of the sliding scale.
fn sliding_number(code: i64) -> Exact {
    let count = if code < 0 {
        sliding_count(code.wrapping_neg()).wrapping_neg()
    } else {
        sliding_count(code)
    };
    Exact {
        top: i128::from(count),
        bottom: 4096,
    }
}

// Halfway between the two.
fn middle(low: i64, high: i64) -> i64 {
    low.wrapping_add(high.wrapping_sub(low) / 2)
}

impl Marking {
    /// The greatest code with a number; the least is its negation.
    pub fn last(self) -> i64 {
        match self {
            Marking::Ruled(division) => 2147483647i64.wrapping_mul(i64::from(division)),
            Marking::Sliding => 81919,
        }
    }

    /// The place of a code.
    pub fn place(self, code: i64) -> End {
        let last = self.last();
        if code < last.wrapping_neg() {
            return End::Minus;
        }
        if code > last {
            return End::Plus;
        }
        match self {
            Marking::Ruled(division) => End::Number(Exact {
                top: i128::from(code),
                bottom: i128::from(division),
            }),
            Marking::Sliding => End::Number(sliding_number(code)),
        }
    }

    // The last code that passes, where the codes up to it pass. The one before the first with a number does, the one after the last does not.
    fn last_that<F: Fn(i64) -> bool>(self, passes: F) -> i64
        requires { F.IsAlwaysCallable passes }
    {
        let mut low = self.last().wrapping_neg().wrapping_sub(1);
        let mut high = self.last().wrapping_add(1);
        // a while would need its end proved by hand; 64 halvings are enough
        for _ in 0..64 {
            if high.wrapping_sub(low) <= 1 {
                break;
            }
            let code = middle(low, high);
            if passes(code) {
                low = code;
            } else {
                high = code;
            }
        }
        low
    }

    /// The greatest code whose place is not above the end, which is not plus infinity.
    pub fn below(self, end: End) -> i64 {
        self.last_that(|code| !end.is_below(self.place(code)))
    }

    /// The least code whose place is not below the end, which is not minus infinity.
    pub fn above(self, end: End) -> i64 {
        self.last_that(|code| self.place(code).is_below(end))
            .wrapping_add(1)
    }
}
