//! Sheets to try: a draft gathers constants and instructions, and becomes a file.
use crate::dice::Dice;
use crate::entries::fraction;
use crate::separate::entry::Written;
use crate::separate::operation::{Argument, Operation, Piles};
use std::alloc::{AllocError, Global};

/// Constants and instructions, and the piles after them.
#[derive(Drop)]
pub struct Draft {
    // operands are read from the lines below this one
    lines: u8,
    constants: Vec<Written>,
    instructions: Vec<[u8; 2]>,
    piles: Piles,
}

/// The distances of the two parts from the end of the file, and how many of each there are.
#[derive(Clone, Copy)]
pub struct Trailer {
    pub constants_far: u32,
    pub instructions_far: u32,
    pub constants: u16,
    pub instructions: u16,
}

/// Appends some bytes of no meaning, fewer than so many.
pub fn fill(dice: &mut Dice, bytes: &mut Vec<u8>, limit: u64) -> Result<(), AllocError> {
    for _ in 0..dice.below(limit) {
        bytes.push(dice.byte())?;
    }
    Ok(())
}

/// The length as a trailer has it.
pub fn short(length: usize) -> u32 {
    u32::try_from(length).unwrap_or(u32::MAX)
}

// The count as a trailer has it.
// no generic function for this and the length: each call would have to name the greatest of its type
fn shorter(count: usize) -> u16 {
    u16::try_from(count).unwrap_or(u16::MAX)
}

impl Trailer {
    /// Appends its bytes.
    pub fn push_onto(self, bytes: &mut Vec<u8>) -> Result<(), AllocError> {
        bytes.extend_from_slice(&self.constants_far.to_le_bytes())?;
        bytes.extend_from_slice(&self.instructions_far.to_le_bytes())?;
        bytes.extend_from_slice(&self.constants.to_le_bytes())?;
        bytes.extend_from_slice(&self.instructions.to_le_bytes())
    }
}

impl Draft {
    /// An empty draft, which reads its operands from the lines below the one given.
    pub fn new(heap: Global, lines: u8) -> Draft {
        Draft {
            lines,
            constants: Vec::new(heap),
            instructions: Vec::new(heap),
            piles: Piles::EMPTY,
        }
    }

    /// Adds a constant.
    pub fn add_constant(&mut self, written: Written) -> Result<(), AllocError> {
        self.constants.push(written)?;
        Ok(())
    }

    // Adds an instruction.
    fn add(&mut self, operation: Operation, argument: u8) -> Result<(), AllocError> {
        self.instructions.push([operation as u8, argument])?;
        self.piles = self.piles.after(operation.shape());
        Ok(())
    }

    // Whether the piles hold what the operation takes.
    fn holds_operands(&self, operation: Operation) -> bool {
        self.piles.hold(operation.shape().takes)
    }

    // Puts a constant, often a new one.
    fn add_some_constant(&mut self, dice: &mut Dice) -> Result<(), AllocError> {
        let count = self.constants.len();
        if count == 0 || count < 60 && dice.one_in(2) {
            self.add_constant(fraction(dice))?;
        }
        let i = dice.index(self.constants.len());
        self.add(Operation::Constant, u8::try_from(i).unwrap_or(0))
    }

    // Puts a range: one of the first lines, or a constant.
    fn add_operand(&mut self, dice: &mut Dice) -> Result<(), AllocError> {
        if dice.one_in(4) {
            self.add_some_constant(dice)
        } else {
            self.add(Operation::Line, dice.byte_below(self.lines))
        }
    }

    // Adds the operation, whose operands are there, with an argument that it allows.
    fn add_allowed(&mut self, dice: &mut Dice, operation: Operation) -> Result<(), AllocError> {
        match operation {
            Operation::Line => self.add(operation, dice.byte_below(self.lines)),
            Operation::Constant => self.add_some_constant(dice),
            Operation::Keep | Operation::Flag => self.add(operation, dice.byte_below(32)),
            _ => self.add(operation, 0),
        }
    }

    // Adds one of the comparisons.
    fn add_comparison(&mut self, dice: &mut Dice) -> Result<(), AllocError> {
        let comparisons = [Operation::Less, Operation::AtMost, Operation::Equal];
        self.add(dice.one_of(&comparisons), 0)
    }

    /// Any operation, on lines and constants.
    pub fn add_single(&mut self, dice: &mut Dice) -> Result<(), AllocError> {
        let operation = dice.one_of(&Operation::ALL);
        let takes = operation.shape().takes;
        for _ in 0..takes.verdicts {
            self.add_operand(dice)?;
            self.add_operand(dice)?;
            self.add_comparison(dice)?;
        }
        for _ in 0..takes.ranges {
            self.add_operand(dice)?;
        }
        self.add_allowed(dice, operation)
    }

    /// So many instructions of any kind.
    pub fn add_mixed(&mut self, dice: &mut Dice, count: u64) -> Result<(), AllocError> {
        for _ in 0..count {
            let operation = dice.one_of(&Operation::ALL);
            if self.piles.ranges > 40 {
                self.add(Operation::Keep, dice.byte_below(32))?;
            } else if self.holds_operands(operation) {
                self.add_allowed(dice, operation)?;
            } else {
                self.add_operand(dice)?;
            }
        }
        Ok(())
    }

    /// As many ranges and verdicts, left on their piles.
    pub fn add_deep(&mut self, piles: Piles) -> Result<(), AllocError> {
        for _ in 0..piles.verdicts {
            self.add(Operation::Line, 0)?;
            self.add(Operation::Again, 0)?;
            self.add(Operation::Equal, 0)?;
        }
        for _ in 0..piles.ranges {
            self.add(Operation::Line, 1)?;
        }
        Ok(())
    }

    // Adds an instruction of any bytes, most of them near those that are allowed.
    fn add_doubtful(&mut self, dice: &mut Dice) -> Result<(), AllocError> {
        let byte = dice.byte_below(25);
        let Ok(operation) = Operation::try_from(byte) else {
            let argument = dice.byte();
            if dice.one_in(6) {
                self.instructions.push([byte, argument])?;
                return Ok(());
            }
            return self.add(Operation::Line, argument & 31);
        };
        let argument = match operation.shape().argument {
            Argument::Unused if !dice.one_in(16) => 0,
            _ => dice.byte_below(33),
        };
        if self.holds_operands(operation) || dice.one_in(6) {
            self.add(operation, argument)
        } else {
            self.add(Operation::Line, argument & 31)
        }
    }

    /// So many instructions of any bytes.
    pub fn add_any(&mut self, dice: &mut Dice, count: u64) -> Result<(), AllocError> {
        for _ in 0..count {
            self.add_doubtful(dice)?;
        }
        Ok(())
    }

    /// Empties both piles into lines and flags.
    pub fn finish(&mut self) -> Result<(), AllocError> {
        for i in 0..self.piles.ranges {
            self.add(Operation::Keep, (i.wrapping_add(8) % 32) as u8)?;
        }
        for i in 0..self.piles.verdicts {
            self.add(Operation::Flag, (i % 32) as u8)?;
        }
        Ok(())
    }

    /// The file, with a few unused bytes.
    pub fn file(&self, heap: Global, dice: &mut Dice) -> Result<Vec<u8>, AllocError> {
        let mut bytes = Vec::new(heap);
        fill(dice, &mut bytes, 5)?;
        let constants = bytes.len();
        for written in self.constants.iter() {
            bytes.extend_from_slice(&written.p.to_le_bytes())?;
            bytes.extend_from_slice(&written.q.to_le_bytes())?;
        }
        fill(dice, &mut bytes, 3)?;
        let instructions = bytes.len();
        bytes.extend_from_slice(self.instructions.as_slice().as_flattened())?;
        fill(dice, &mut bytes, 3)?;
        let end = bytes.len().wrapping_add(12);
        let trailer = Trailer {
            constants_far: short(end.wrapping_sub(constants)),
            instructions_far: short(end.wrapping_sub(instructions)),
            constants: shorter(self.constants.len()),
            instructions: shorter(self.instructions.len()),
        };
        trailer.push_onto(&mut bytes)?;
        Ok(bytes)
    }

    /// The file, after both piles are emptied.
    pub fn finished_file(mut self, heap: Global, dice: &mut Dice) -> Result<Vec<u8>, AllocError> {
        self.finish()?;
        self.file(heap, dice)
    }
}
