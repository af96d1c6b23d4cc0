//! The faults of the layers filing and clearing.
ghost use Rattle.sheet.specs.Faults.{filing_refusal, clearing_refusal};

use fault::{Fault, Layer, Refusal};

/// Why a file is not filed.
#[derive(Clone, Copy, PartialEq, Eq, Debug)]
pub enum FilingFault {
    /// The file has this length, which is below 12 or over 32,768.
    Length(usize),
    /// There are over 64 constants.
    ConstantCount,
    /// There is no instruction, or there are over 4,096.
    InstructionCount,
    /// The instructions reach into the trailer.
    InstructionDistance,
    /// The constants reach into the instructions, or begin before the file does.
    ConstantDistance,
}

/// Why a filed sheet is not cleared, and at which constant or instruction.
#[derive(Clone, Copy, PartialEq, Eq, Debug)]
pub enum ClearingFault {
    /// The constant has no value.
    Valueless(usize),
    /// There is no such operation.
    UnknownOperation(usize),
    /// The operation does not allow the argument.
    Argument(usize),
    /// A pile holds fewer operands than the operation takes.
    TooFewOperands(usize),
    /// A pile is not empty after so many instructions, the last.
    NotEmpty(usize),
}

impl Fault for FilingFault {
    ghost told = { filing_refusal };

    fn refusal(&self) -> Refusal {
        match self {
            FilingFault::Length(length) => Refusal::new(Layer::Filing, 1, *length as u64),
            FilingFault::ConstantCount => Refusal::new(Layer::Filing, 2, 0),
            FilingFault::InstructionCount => Refusal::new(Layer::Filing, 2, 1),
            FilingFault::InstructionDistance => Refusal::new(Layer::Filing, 3, 0),
            FilingFault::ConstantDistance => Refusal::new(Layer::Filing, 3, 1),
        }
    }
}

impl Fault for ClearingFault {
    ghost told = { clearing_refusal };

    fn refusal(&self) -> Refusal {
        match self {
            ClearingFault::Valueless(at) => Refusal::new(Layer::Clearing, 4, *at as u64),
            ClearingFault::UnknownOperation(at) => Refusal::new(Layer::Clearing, 5, *at as u64),
            ClearingFault::Argument(at) => Refusal::new(Layer::Clearing, 6, *at as u64),
            ClearingFault::TooFewOperands(at) => Refusal::new(Layer::Clearing, 7, *at as u64),
            ClearingFault::NotEmpty(at) => Refusal::new(Layer::Clearing, 8, *at as u64),
        }
    }
}
