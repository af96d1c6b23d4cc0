//! The rules that a call can break, and how each is told.
use super::answer::{Layer, Refused};

/// The two sides of a range.
#[derive(Clone, Copy)]
pub enum Side {
    Lower,
    Upper,
}

/// The rule that a call breaks first, and where. A `usize` is an index into the sheet.
#[derive(Clone, Copy)]
pub enum Broken {
    /// The file is of this length.
    Length(usize),
    ConstantCount,
    InstructionCount,
    InstructionsDistance,
    ConstantsDistance,
    Value(usize),
    Operation(usize),
    Argument(usize),
    Operands(usize),
    /// The piles are not empty after this many instructions.
    Rest(usize),
    /// No line and no flag has this number.
    Cell(u8),
    Bound(Side),
    Crossed(u8),
    Division(u32),
    Unset(u8),
    /// This many slots for ranges are needed.
    RangeSlots(u64),
    /// This many slots for verdicts are needed.
    VerdictSlots(u64),
}

impl From<Broken> for Refused {
    fn from(broken: Broken) -> Refused {
        let (layer, number, place) = match broken {
            Broken::Length(length) => (Layer::Filing, 1, length as u64),
            Broken::ConstantCount => (Layer::Filing, 2, 0),
            Broken::InstructionCount => (Layer::Filing, 2, 1),
            Broken::InstructionsDistance => (Layer::Filing, 3, 0),
            Broken::ConstantsDistance => (Layer::Filing, 3, 1),
            Broken::Value(i) => (Layer::Clearing, 4, i as u64),
            Broken::Operation(i) => (Layer::Clearing, 5, i as u64),
            Broken::Argument(i) => (Layer::Clearing, 6, i as u64),
            Broken::Operands(i) => (Layer::Clearing, 7, i as u64),
            Broken::Rest(count) => (Layer::Clearing, 8, count as u64),
            Broken::Cell(cell) => (Layer::Pad, 9, u64::from(cell)),
            Broken::Bound(Side::Lower) => (Layer::Pad, 10, 0),
            Broken::Bound(Side::Upper) => (Layer::Pad, 10, 1),
            Broken::Crossed(line) => (Layer::Pad, 11, u64::from(line)),
            Broken::Division(division) => (Layer::Scale, 12, u64::from(division)),
            Broken::Unset(cell) => (Layer::Pad, 14, u64::from(cell)),
            Broken::RangeSlots(depth) => (Layer::Pad, 15, depth),
            Broken::VerdictSlots(depth) => (Layer::Pad, 16, depth),
        };
        Refused {
            layer,
            number,
            place,
        }
    }
}
