//! Files: where the parts lie, and what they hold.
use super::broken::Broken;
use super::operation::Operation;

/// The constants and the instructions of a file.
#[derive(Clone, Copy)]
pub struct Filed<'a> {
    pub constants: &'a [[u8; 8]],
    pub instructions: &'a [[u8; 2]],
}

/// An instruction, whose byte may be no operation's.
#[derive(Clone, Copy)]
pub struct Instruction {
    pub operation: Option<Operation>,
    pub argument: u8,
}

impl From<[u8; 2]> for Instruction {
    fn from(bytes: [u8; 2]) -> Instruction {
        let [byte, argument] = bytes;
        Instruction {
            operation: Operation::try_from(byte).ok(),
            argument,
        }
    }
}

impl Instruction {
    /// Whether its argument is a line.
    pub fn names_line(self) -> bool {
        matches!(self.operation, Some(Operation::Line | Operation::Keep))
    }
}

/// Files the bytes.
pub fn file(bytes: &[u8]) -> Result<Filed<'_>, Broken> {
    let length = bytes.len();
    if length > 32768 {
        return Err(Broken::Length(length));
    }
    let Some(trailer) = bytes.last_chunk::<12>() else {
        return Err(Broken::Length(length));
    };
    let [c0, c1, c2, c3, i0, i1, i2, i3, k0, k1, n0, n1] = *trailer;
    let constants_far = u32::from_le_bytes([c0, c1, c2, c3]) as usize;
    let instructions_far = u32::from_le_bytes([i0, i1, i2, i3]) as usize;
    let k = usize::from(u16::from_le_bytes([k0, k1]));
    let n = usize::from(u16::from_le_bytes([n0, n1]));
    if k > 64 {
        return Err(Broken::ConstantCount);
    }
    if n == 0 || n > 4096 {
        return Err(Broken::InstructionCount);
    }
    if instructions_far < 2 * n + 12 {
        return Err(Broken::InstructionsDistance);
    }
    if constants_far < 8 * k + instructions_far || constants_far > length {
        return Err(Broken::ConstantsDistance);
    }
    let constants = length - constants_far;
    let instructions = length - instructions_far;
    let (constants, _) = bytes[constants..constants + 8 * k].as_chunks();
    let (instructions, _) = bytes[instructions..instructions + 2 * n].as_chunks();
    Ok(Filed {
        constants,
        instructions,
    })
}
