//! What clearing asks of constants and instructions, and what a cleared sheet needs.
use super::broken::Broken;
use super::entry::Written;
use super::filing::{Filed, Instruction};
use super::operation::{Argument, Operation, Piles};

// Whether the argument is allowed where there are so many constants.
fn is_allowed(argument: Argument, value: u8, constants: usize) -> bool {
    match argument {
        Argument::Cell => value < 32,
        Argument::Constant => usize::from(value) < constants,
        Argument::Unused => value == 0,
    }
}

/// Clears a filed sheet, and tells the greatest depths of its piles.
pub fn clear(filed: Filed) -> Result<Piles, Broken> {
    let mut constants = filed.constants.iter();
    if let Some(i) = constants.position(|bytes| Written::from(*bytes).value().is_none()) {
        return Err(Broken::Value(i));
    }
    let mut piles = Piles::EMPTY;
    let mut depths = Piles::EMPTY;
    for (i, bytes) in filed.instructions.iter().enumerate() {
        let Instruction {
            operation,
            argument,
        } = Instruction::from(*bytes);
        let shape = operation.ok_or(Broken::Operation(i))?.shape();
        if !is_allowed(shape.argument, argument, filed.constants.len()) {
            return Err(Broken::Argument(i));
        }
        if !piles.hold(shape.takes) {
            return Err(Broken::Operands(i));
        }
        piles = piles.after(shape);
        depths = depths.max(piles);
    }
    if piles.ranges > 0 || piles.verdicts > 0 {
        return Err(Broken::Rest(filed.instructions.len()));
    }
    Ok(depths)
}

/// Whether the first instruction that names the line puts it.
pub fn is_read_first(filed: Filed, line: u8) -> bool {
    filed
        .instructions
        .iter()
        .map(|bytes| Instruction::from(*bytes))
        .find(|i| i.argument == line && i.names_line())
        .is_some_and(|i| i.operation == Some(Operation::Line))
}
