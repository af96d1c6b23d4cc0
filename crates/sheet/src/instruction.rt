//! Instructions by their names.
ghost use Rattle.std.specs.Prelude.{◌≡◌, ◌<◌, [], length, slice_index_or};
ghost use Rattle.number.specs.Bytes.{fraction_at};
ghost use Rattle.sheet.specs.declared.operation.Operation.TheVariants.{Constant as constant_operation};

use crate::operation::Operation;
use number::Fraction;

/// An instruction of a sheet, with the line, flag or constant that it names.
// `Operation` has the same names: what is taken and put depends on the name alone, so it needs no argument
#[derive(Clone, Copy, PartialEq, Eq, Debug)]
pub enum Instruction {
    /// Puts the range of the line.
    Line(u8),
    /// Puts the range of the constant.
    Constant(Fraction),
    /// Takes the top range into the line.
    Keep(u8),
    /// Takes the top verdict into the flag.
    Flag(u8),
    /// Puts the top range once more.
    Again,
    Plus,
    Minus,
    Times,
    Over,
    /// Puts the quotients by the two sides of the divisor.
    Parted,
    Negate,
    Square,
    Lesser,
    Greater,
    Join,
    Meet,
    Less,
    AtMost,
    Equal,
    And,
    Or,
    Not,
    /// Takes a verdict and two ranges, and puts one range.
    Pick,
}

impl Instruction {
    ghost use Rattle.sheet.specs.Instructions.{named};

    /// The instruction of the operation and its argument, on a sheet with these constants.
    pub(crate) fn of(operation: Operation, argument: u8, constants: &[[u8; 8]]) -> Instruction
        requires { operation ≡ constant_operation → argument < length constants.now }
        ensures { result ≡ named operation argument (fraction_at (slice_index_or constants.now argument []) 0) }
    {
        match operation {
            Operation::Line => Instruction::Line(argument),
            Operation::Constant => {
                Instruction::Constant(Fraction::from_le_bytes(constants[usize::from(argument)]))
            }
            Operation::Keep => Instruction::Keep(argument),
            Operation::Flag => Instruction::Flag(argument),
            Operation::Again => Instruction::Again,
            Operation::Plus => Instruction::Plus,
            Operation::Minus => Instruction::Minus,
            Operation::Times => Instruction::Times,
            Operation::Over => Instruction::Over,
            Operation::Parted => Instruction::Parted,
            Operation::Negate => Instruction::Negate,
            Operation::Square => Instruction::Square,
            Operation::Lesser => Instruction::Lesser,
            Operation::Greater => Instruction::Greater,
            Operation::Join => Instruction::Join,
            Operation::Meet => Instruction::Meet,
            Operation::Less => Instruction::Less,
            Operation::AtMost => Instruction::AtMost,
            Operation::Equal => Instruction::Equal,
            Operation::And => Instruction::And,
            Operation::Or => Instruction::Or,
            Operation::Not => Instruction::Not,
            Operation::Pick => Instruction::Pick,
        }
    }
}
