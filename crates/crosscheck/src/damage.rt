//! Files that may break the rules of filing and clearing.
//!
//! The allocator is a parameter before the dice, as the library has it: every function allocates, and most are called once.
use crate::dice::Dice;
use crate::draft::{Draft, Trailer, fill, short};
use crate::entries::{fraction, spoiled};
use crate::separate::operation::Operation;
use std::alloc::{AllocError, Global};

// Sets the byte, where there is one.
fn set(bytes: &mut Vec<u8>, at: usize, byte: u8) {
    if let Some(cell) = bytes.get_mut(at) {
        *cell = byte;
    }
}

// Raises or lowers the byte by one or two, where there is one.
fn nudge(dice: &mut Dice, bytes: &mut Vec<u8>, at: usize) {
    let by = dice.byte_below(4).wrapping_sub(2);
    if let Some(cell) = bytes.get_mut(at) {
        *cell = cell.wrapping_add(by);
    }
}

// Changes something in a valid file.
fn change(dice: &mut Dice, bytes: &mut Vec<u8>) {
    let length = bytes.len();
    // the trailer begins here
    let trailer = length.wrapping_sub(12);
    match dice.below(8) {
        0 => set(bytes, dice.index(length), dice.byte()),
        1 => set(bytes, trailer.wrapping_add(dice.index(12)), dice.byte()),
        // the lowest byte of a distance or a count
        2 => nudge(dice, bytes, trailer),
        3 => nudge(dice, bytes, trailer.wrapping_add(4)),
        4 => nudge(dice, bytes, length.wrapping_sub(2)),
        5 => bytes.truncate(dice.index(length)),
        6 => drop(bytes.drain(..dice.index(length))),
        // an instruction, mostly
        _ => {
            let back = dice.index(trailer);
            nudge(dice, bytes, trailer.wrapping_sub(back));
        }
    }
}

// A valid file with something changed.
fn changed(heap: Global, dice: &mut Dice) -> Result<Vec<u8>, AllocError> {
    let mut draft = Draft::new(heap, 4);
    let count = 1 + dice.below(8);
    draft.add_mixed(dice, count)?;
    let mut bytes = draft.finished_file(heap, dice)?;
    change(dice, &mut bytes);
    Ok(bytes)
}

// A small or any trailer, or none, for a file that has so many bytes so far.
fn any_trailer(dice: &mut Dice, length: usize) -> Option<Trailer> {
    let end = length.saturating_add(14);
    match dice.below(4) {
        0 => None,
        1 => Some(Trailer {
            constants_far: dice.word(),
            instructions_far: dice.word(),
            constants: (dice.word() & 127) as u16,
            instructions: (dice.word() & 8191) as u16,
        }),
        // distances that would wrap if they were added in 32 bits
        2 => Some(Trailer {
            constants_far: short(dice.index(end)),
            instructions_far: dice.word() | 0xffff_ffc0,
            constants: dice.below(9) as u16,
            instructions: dice.below(9) as u16,
        }),
        _ => Some(Trailer {
            constants_far: short(dice.index(end)),
            instructions_far: short(dice.index(end)),
            constants: dice.below(3) as u16,
            instructions: dice.below(9) as u16,
        }),
    }
}

// Any bytes.
fn any_bytes(heap: Global, dice: &mut Dice) -> Result<Vec<u8>, AllocError> {
    let mut bytes = Vec::new(heap);
    fill(dice, &mut bytes, 60)?;
    if let Some(trailer) = any_trailer(dice, bytes.len()) {
        trailer.push_onto(&mut bytes)?;
    }
    Ok(bytes)
}

// A sheet of which a constant has no value.
fn valueless(heap: Global, dice: &mut Dice) -> Result<Vec<u8>, AllocError> {
    let mut draft = Draft::new(heap, 32);
    for _ in 0..dice.below(4) {
        draft.add_constant(fraction(dice))?;
    }
    let written = fraction(dice);
    draft.add_constant(spoiled(dice, written))?;
    draft.add_constant(fraction(dice))?;
    draft.add_any(dice, 3)?;
    draft.file(heap, dice)
}

// A sheet of any instructions; its piles may be left as they come out.
fn any_instructions(heap: Global, dice: &mut Dice) -> Result<Vec<u8>, AllocError> {
    let mut draft = Draft::new(heap, 32);
    for _ in 0..dice.below(40) {
        draft.add_constant(fraction(dice))?;
    }
    let count = 1 + dice.below(7);
    draft.add_any(dice, count)?;
    if dice.one_in(2) {
        draft.finish()?;
    }
    draft.file(heap, dice)
}

// A file at or beside the limits of length and counts.
fn limit_file(heap: Global, dice: &mut Dice) -> Result<Vec<u8>, AllocError> {
    let constants = 62 + dice.below(4) as u16;
    let instructions = 4094 + dice.below(4) as u16;
    let instructions_far = 12 + 2 * u32::from(instructions);
    let constants_far = instructions_far + 8 * u32::from(constants);
    let mut bytes = Vec::new(heap);
    if dice.one_in(2) {
        let length = 32766 + dice.index(4);
        bytes.resize(length - constants_far as usize, 0)?;
    }
    for _ in 0..constants {
        bytes.extend_from_slice(&[1, 0, 0, 0, 1, 0, 0, 0])?;
    }
    for i in 0..instructions {
        // puts a constant, then keeps it
        let operation = if i % 2 == 0 {
            Operation::Constant
        } else {
            Operation::Keep
        };
        bytes.extend_from_slice(&[operation as u8, (i % 32) as u8])?;
    }
    let trailer = Trailer {
        constants_far,
        instructions_far,
        constants,
        instructions,
    };
    trailer.push_onto(&mut bytes)?;
    Ok(bytes)
}

/// A file that may break the rules.
pub fn damaged_file(heap: Global, dice: &mut Dice) -> Result<Vec<u8>, AllocError> {
    match dice.below(16) {
        0..=1 => any_bytes(heap, dice),
        2 => valueless(heap, dice),
        3..=8 => any_instructions(heap, dice),
        9 if dice.one_in(8) => limit_file(heap, dice),
        _ => changed(heap, dice),
    }
}
