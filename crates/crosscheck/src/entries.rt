//! Fractions and entries to try.
use crate::dice::Dice;
use crate::separate::entry::{Entered, Written};

// The limits of both scales and their neighbours, and numbers whose squares are near them.
const EDGES: [i32; 24] = [
    2147483647,
    -2147483647,
    -2147483648,
    2147483646,
    -2147483646,
    1073741824,
    -1073741824,
    524224,
    -524224,
    524223,
    524225,
    -524225,
    524160,
    524288,
    1048448,
    1048449,
    -1048449,
    46340,
    46341,
    -46341,
    65536,
    724,
    8191,
    4096,
];

// Lower parts at which numbers fall on marks or beside them, and the greatest one.
const PARTS: [u32; 14] = [
    1, 2, 3, 7, 10, 100, 1000, 4096, 4097, 8192, 65536, 65537, 1073741824, 2147483647,
];

// Lower parts without a value.
const VALUELESS: [u32; 4] = [0, 0x8000_0000, 0x8000_0001, 0xffff_ffff];

fn small(dice: &mut Dice) -> i32 {
    let numbers = [0, 1, 2, 3, 4, 5, 7, 9, 12, -1, -2, -3, -4, -5, -7, -9, -12];
    dice.one_of(&numbers)
}

// Any lower part with a value.
fn any_part(dice: &mut Dice) -> u32 {
    (dice.word() >> 1).max(1)
}

/// A fraction with a value.
pub fn fraction(dice: &mut Dice) -> Written {
    let (p, q) = match dice.below(12) {
        0..=2 => (small(dice), dice.one_of(&[1, 2, 3, 4, 5, 6, 8, 9, 10])),
        3 => (small(dice), 1),
        4 => (dice.one_of(&EDGES), 1),
        5 => (dice.one_of(&EDGES), dice.one_of(&PARTS)),
        6 => (dice.signed(), any_part(dice)),
        7 => (dice.signed(), dice.one_of(&PARTS)),
        8 => (small(dice), any_part(dice)),
        9 => (0, any_part(dice)),
        10 => (dice.signed() / 65536, dice.one_of(&PARTS)),
        _ => (dice.signed() / 1024, dice.one_of(&PARTS)),
    };
    Written { p, q }
}

/// The upper part stays, and the lower one has no value.
pub fn spoiled(dice: &mut Dice, written: Written) -> Written {
    let q = if dice.one_in(2) {
        dice.one_of(&VALUELESS)
    } else {
        dice.word() | 0x8000_0000
    };
    Written { q, ..written }
}

// Whether the first is above the second.
fn is_above(a: Written, b: Written) -> bool {
    match (a.value(), b.value()) {
        (Some(a), Some(b)) => b.is_below(a),
        _ => false,
    }
}

// Two bounds, the lower one first.
fn both(a: Written, b: Written) -> Entered {
    if is_above(a, b) {
        Entered::Bounds(Some(b), Some(a))
    } else {
        Entered::Bounds(Some(a), Some(b))
    }
}

// The fraction to one that is a little higher.
fn narrow(a: Written) -> Entered {
    let p = a.p.saturating_add(1);
    both(a, Written { p, ..a })
}

// Up to one more or less.
fn beside(dice: &mut Dice, p: i32) -> i32 {
    p.saturating_add(dice.one_of(&[-1, 0, 1]))
}

// A fraction of nearly the same value, or of the same value in other words.
fn neighbour(dice: &mut Dice, a: Written) -> Written {
    if dice.one_in(3) {
        if let (Some(p), Some(q)) = (a.p.checked_mul(3), a.q.checked_mul(3)) {
            return Written { p, q };
        }
    }
    let q = a.q.wrapping_add(dice.one_of(&[0, 1, 2])).wrapping_sub(1);
    Written {
        p: beside(dice, a.p),
        q: q.clamp(1, 2147483647),
    }
}

/// An entry that a line takes.
pub fn entry(dice: &mut Dice) -> Entered {
    let a = fraction(dice);
    match dice.below(20) {
        0 => Entered::Blank,
        1 => Entered::Bounds(None, Some(a)),
        2 => Entered::Bounds(Some(a), None),
        3 => Entered::Bounds(None, None),
        4..=7 => Entered::Bounds(Some(a), Some(a)),
        8 => narrow(a),
        9 => both(a, neighbour(dice, a)),
        10 => both(a, Written { p: 0, q: 1 }),
        11 => {
            let p = a.p.checked_neg().unwrap_or(0);
            both(a, Written { p, ..a })
        }
        _ => both(a, fraction(dice)),
    }
}

/// An entry that may break the rules.
pub fn doubtful_entry(dice: &mut Dice) -> Entered {
    let a = fraction(dice);
    let b = fraction(dice);
    match dice.below(8) {
        0 => Entered::Bounds(Some(spoiled(dice, a)), Some(b)),
        1 => Entered::Bounds(Some(a), Some(spoiled(dice, b))),
        2 => Entered::Bounds(Some(spoiled(dice, a)), Some(spoiled(dice, b))),
        3 => Entered::Bounds(Some(spoiled(dice, a)), None),
        4 => Entered::Bounds(None, Some(spoiled(dice, b))),
        5 => Entered::Bounds(Some(a), Some(neighbour(dice, a))),
        _ => Entered::Bounds(Some(a), Some(b)),
    }
}
