//! The operations: their bytes, what their arguments name, and what they take from the piles and put there.
ghost use Rattle.std.specs.Prelude.{◌≡◌, Some, None, MatchResult};
ghost use Rattle.sheet.specs.Operations.{allowed, operation_of, shape, shape_by};

/// What an instruction does.
#[derive(Clone, Copy)]
pub enum Operation {
    Line,
    Constant,
    Keep,
    Plus,
    Minus,
    Times,
    Over,
    Parted,
    Negate,
    Square,
    Lesser,
    Greater,
    Join,
    Meet,
    Again,
    Less,
    AtMost,
    Equal,
    And,
    Or,
    Not,
    Pick,
    Flag,
}

/// There is no operation of the byte.
#[derive(Clone, Copy)]
pub struct UnknownOperation;

/// What the argument of an operation names.
#[derive(Clone, Copy)]
pub enum Argument {
    Line,
    Constant,
    Flag,
    Unused,
}

/// How many an operation takes from a pile, and how many it then puts there.
#[derive(Clone, Copy)]
pub struct Move {
    pub takes: usize,
    pub puts: usize,
}

/// What an operation asks of its argument, of the pile of ranges and of the pile of verdicts.
#[derive(Clone, Copy)]
pub struct Shape {
    pub argument: Argument,
    pub ranges: Move,
    pub verdicts: Move,
}

impl Argument {
    /// Whether the argument may be this byte, on a sheet with so many constants.
    pub fn allows(self, constants: usize, byte: u8) -> bool
        ensures { result ≡ allowed self constants byte }
    {
        match self {
            Argument::Line | Argument::Flag => byte <= 31,
            Argument::Constant => usize::from(byte) < constants,
            Argument::Unused => byte == 0,
        }
    }
}

// What is taken, then what is put.
impl From<(usize, usize)> for Move {
    ghost from_gives = { λ m r. (r.takes ≡ m.0) × (r.puts ≡ m.1) };

    fn from(moved: (usize, usize)) -> Move {
        let (takes, puts) = moved;
        Move { takes, puts }
    }
}

impl Shape {
    // Each pair is what is taken and what is put, of ranges and of verdicts.
    fn new(argument: Argument, ranges: (usize, usize), verdicts: (usize, usize)) -> Shape
        ensures { result ≡ shape_by argument ranges.0 ranges.1 verdicts.0 verdicts.1 }
    {
        Shape {
            argument,
            ranges: Move::from(ranges),
            verdicts: Move::from(verdicts),
        }
    }
}

impl TryFrom<u8> for Operation {
    type Error = UnknownOperation;

    ghost try_from_gives = { λ byte r. MatchResult r (λ o. operation_of byte ≡ Some o) (λ _. operation_of byte ≡ None) };

    #[tactic(auto, unfolding(crate::specs::Operations::operation_of))]
    fn try_from(byte: u8) -> Result<Operation, UnknownOperation> {
        Ok(match byte {
            0x01 => Operation::Line,
            0x02 => Operation::Constant,
            0x03 => Operation::Keep,
            0x04 => Operation::Plus,
            0x05 => Operation::Minus,
            0x06 => Operation::Times,
            0x07 => Operation::Over,
            0x08 => Operation::Parted,
            0x09 => Operation::Negate,
            0x0A => Operation::Square,
            0x0B => Operation::Lesser,
            0x0C => Operation::Greater,
            0x0D => Operation::Join,
            0x0E => Operation::Meet,
            0x0F => Operation::Again,
            0x10 => Operation::Less,
            0x11 => Operation::AtMost,
            0x12 => Operation::Equal,
            0x13 => Operation::And,
            0x14 => Operation::Or,
            0x15 => Operation::Not,
            0x16 => Operation::Pick,
            0x17 => Operation::Flag,
            _ => return Err(UnknownOperation),
        })
    }
}

impl Operation {
    /// What the operation asks.
    pub fn shape(self) -> Shape
        ensures { result ≡ shape self }
    {
        match self {
            Operation::Line => Shape::new(Argument::Line, (0, 1), (0, 0)),
            Operation::Constant => Shape::new(Argument::Constant, (0, 1), (0, 0)),
            Operation::Keep => Shape::new(Argument::Line, (1, 0), (0, 0)),
            Operation::Plus
            | Operation::Minus
            | Operation::Times
            | Operation::Over
            | Operation::Lesser
            | Operation::Greater
            | Operation::Join
            | Operation::Meet => Shape::new(Argument::Unused, (2, 1), (0, 0)),
            Operation::Parted => Shape::new(Argument::Unused, (2, 2), (0, 0)),
            Operation::Negate | Operation::Square => {
                Shape::new(Argument::Unused, (1, 1), (0, 0))
            }
            Operation::Again => Shape::new(Argument::Unused, (1, 2), (0, 0)),
            Operation::Less | Operation::AtMost | Operation::Equal => {
                Shape::new(Argument::Unused, (2, 0), (0, 1))
            }
            Operation::And | Operation::Or => Shape::new(Argument::Unused, (0, 0), (2, 1)),
            Operation::Not => Shape::new(Argument::Unused, (0, 0), (1, 1)),
            Operation::Pick => Shape::new(Argument::Unused, (2, 1), (1, 0)),
            Operation::Flag => Shape::new(Argument::Flag, (0, 0), (1, 0)),
        }
    }
}
