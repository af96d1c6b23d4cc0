//! The operations, what each takes off the piles, and what it puts onto them.
ghost use Rattle.std.specs.Prelude.{Some};
ghost use Rattle.crosscheck.specs.Names.{operation_name};

use std::fmt;

/// The operations, in the order of their bytes.
#[derive(Clone, Copy, PartialEq, Eq, PartialOrd, Ord, Default)]
pub enum Operation {
    #[default]
    Line = 0x01,
    Constant = 0x02,
    Keep = 0x03,
    Plus = 0x04,
    Minus = 0x05,
    Times = 0x06,
    Over = 0x07,
    Parted = 0x08,
    Negate = 0x09,
    Square = 0x0a,
    Lesser = 0x0b,
    Greater = 0x0c,
    Join = 0x0d,
    Meet = 0x0e,
    Again = 0x0f,
    Less = 0x10,
    AtMost = 0x11,
    Equal = 0x12,
    And = 0x13,
    Or = 0x14,
    Not = 0x15,
    Pick = 0x16,
    Flag = 0x17,
}

/// A byte that is no operation's.
#[derive(Clone, Copy)]
pub struct UnknownOperation(pub u8);

/// What an argument names.
#[derive(Clone, Copy)]
pub enum Argument {
    Cell,
    Constant,
    Unused,
}

/// So many ranges and so many verdicts.
#[derive(Clone, Copy)]
pub struct Piles {
    pub ranges: u64,
    pub verdicts: u64,
}

/// What an operation names, takes off the piles and puts onto them.
#[derive(Clone, Copy)]
pub struct Shape {
    pub argument: Argument,
    pub takes: Piles,
    pub puts: Piles,
}

impl Piles {
    pub const EMPTY: Piles = Piles {
        ranges: 0,
        verdicts: 0,
    };

    /// Whether there are as many of both.
    pub fn hold(self, takes: Piles) -> bool {
        self.ranges >= takes.ranges && self.verdicts >= takes.verdicts
    }

    /// The piles after the operation; one with less than it takes is emptied first.
    pub fn after(self, shape: Shape) -> Piles {
        Piles {
            ranges: self
                .ranges
                .saturating_sub(shape.takes.ranges)
                .saturating_add(shape.puts.ranges),
            verdicts: self
                .verdicts
                .saturating_sub(shape.takes.verdicts)
                .saturating_add(shape.puts.verdicts),
        }
    }

    /// The greater of both.
    pub fn max(self, other: Piles) -> Piles {
        Piles {
            ranges: self.ranges.max(other.ranges),
            verdicts: self.verdicts.max(other.verdicts),
        }
    }
}

impl Operation {
    pub const ALL: [Operation; 23] = [
        Operation::Line,
        Operation::Constant,
        Operation::Keep,
        Operation::Plus,
        Operation::Minus,
        Operation::Times,
        Operation::Over,
        Operation::Parted,
        Operation::Negate,
        Operation::Square,
        Operation::Lesser,
        Operation::Greater,
        Operation::Join,
        Operation::Meet,
        Operation::Again,
        Operation::Less,
        Operation::AtMost,
        Operation::Equal,
        Operation::And,
        Operation::Or,
        Operation::Not,
        Operation::Pick,
        Operation::Flag,
    ];

    pub fn shape(self) -> Shape {
        let (argument, takes, puts) = match self {
            Operation::Line => (Argument::Cell, (0, 0), (1, 0)),
            Operation::Constant => (Argument::Constant, (0, 0), (1, 0)),
            Operation::Keep => (Argument::Cell, (1, 0), (0, 0)),
            Operation::Plus
            | Operation::Minus
            | Operation::Times
            | Operation::Over
            | Operation::Lesser
            | Operation::Greater
            | Operation::Join
            | Operation::Meet => (Argument::Unused, (2, 0), (1, 0)),
            Operation::Parted => (Argument::Unused, (2, 0), (2, 0)),
            Operation::Negate | Operation::Square => (Argument::Unused, (1, 0), (1, 0)),
            Operation::Again => (Argument::Unused, (1, 0), (2, 0)),
            Operation::Less | Operation::AtMost | Operation::Equal => {
                (Argument::Unused, (2, 0), (0, 1))
            }
            Operation::And | Operation::Or => (Argument::Unused, (0, 2), (0, 1)),
            Operation::Not => (Argument::Unused, (0, 1), (0, 1)),
            Operation::Pick => (Argument::Unused, (2, 1), (1, 0)),
            Operation::Flag => (Argument::Cell, (0, 1), (0, 0)),
        };
        Shape {
            argument,
            takes: takes.into(),
            puts: puts.into(),
        }
    }
}

/// Ranges, then verdicts.
impl From<(u64, u64)> for Piles {
    fn from(counts: (u64, u64)) -> Piles {
        let (ranges, verdicts) = counts;
        Piles { ranges, verdicts }
    }
}

impl TryFrom<u8> for Operation {
    type Error = UnknownOperation;

    fn try_from(byte: u8) -> Result<Operation, UnknownOperation> {
        let operation = Operation::ALL.iter().find(|o| **o as u8 == byte);
        operation.copied().ok_or(UnknownOperation(byte))
    }
}

impl fmt::Display for Operation {
    ghost output = { λ o. Some (operation_name o) };

    fn fmt<W: fmt::Write>(&self, f: &mut fmt::Formatter<W>) -> fmt::Result {
        f.write_str(match self {
            Operation::Line => "line",
            Operation::Constant => "constant",
            Operation::Keep => "keep",
            Operation::Plus => "plus",
            Operation::Minus => "minus",
            Operation::Times => "times",
            Operation::Over => "over",
            Operation::Parted => "parted",
            Operation::Negate => "negate",
            Operation::Square => "square",
            Operation::Lesser => "lesser",
            Operation::Greater => "greater",
            Operation::Join => "join",
            Operation::Meet => "meet",
            Operation::Again => "again",
            Operation::Less => "less",
            Operation::AtMost => "at most",
            Operation::Equal => "equal",
            Operation::And => "and",
            Operation::Or => "or",
            Operation::Not => "not",
            Operation::Pick => "pick",
            Operation::Flag => "flag",
        })
    }
}
