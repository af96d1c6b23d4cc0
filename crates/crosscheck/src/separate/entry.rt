//! Entries: what they are refused for, and what they admit.
//! Its types are like those of the library, and not those, so that the two share nothing.
use super::broken::{Broken, Side};
use super::exact::{End, Exact};
use super::span::{Held, Span};

/// The fraction p / q as it is written.
#[derive(Clone, Copy)]
pub struct Written {
    pub p: i32,
    pub q: u32,
}

/// Blank, or two bounds of which each may be absent.
#[derive(Clone, Copy)]
pub enum Entered {
    Blank,
    Bounds(Option<Written>, Option<Written>),
}

/// Both parts lie in a file with the lowest byte first.
impl From<[u8; 8]> for Written {
    fn from(bytes: [u8; 8]) -> Written {
        let [p0, p1, p2, p3, q0, q1, q2, q3] = bytes;
        Written {
            p: i32::from_le_bytes([p0, p1, p2, p3]),
            q: u32::from_le_bytes([q0, q1, q2, q3]),
        }
    }
}

impl Written {
    /// Its value, if it has one.
    pub fn value(self) -> Option<Exact> {
        match self.q {
            1..=2147483647 => Some(Exact {
                top: i128::from(self.p),
                bottom: i128::from(self.q),
            }),
            _ => None,
        }
    }
}

// The bound, an absent one being the infinity of its side.
fn end(bound: Option<Written>, side: Side) -> Result<End, Broken> {
    match (bound, side) {
        (None, Side::Lower) => Ok(End::Minus),
        (None, Side::Upper) => Ok(End::Plus),
        (Some(written), _) => {
            let number = written.value().ok_or(Broken::Bound(side))?;
            Ok(End::Number(number))
        }
    }
}

/// The numbers that the entry admits into the line, or why it may not be entered.
pub fn admitted(line: u8, entry: Entered) -> Result<Held, Broken> {
    if line >= 32 {
        return Err(Broken::Cell(line));
    }
    let Entered::Bounds(lower, upper) = entry else {
        return Ok(None);
    };
    let lower = end(lower, Side::Lower)?;
    let upper = end(upper, Side::Upper)?;
    if upper.is_below(lower) {
        return Err(Broken::Crossed(line));
    }
    Ok(Some(Span { lower, upper }))
}
