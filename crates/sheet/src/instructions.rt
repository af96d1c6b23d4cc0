//! The instructions of a cleared sheet in turn.
ghost use Rattle.std.specs.Iterator.{YieldsFirst, item_count};
ghost use Rattle.sheet.specs.Held.{instructions_left};

use crate::instruction::Instruction;
use crate::sheet::ClearedSheet;

/// What is left of the instructions of a sheet.
// the place is the state: an instruction is read by `instruction`, which knows that clearing has looked at it
#[derive(Drop)]
pub struct Instructions<'a> {
    pub(crate) sheet: &'a ClearedSheet<'a>,
    pub(crate) next: usize,
}

impl Iterator for Instructions<'_> {
    type Item = Instruction;

    ghost next_gives = { YieldsFirst instructions_left };

    ghost remaining = { item_count instructions_left };

    #[tactic(auto, using(crate::proofs::Left::left_more, crate::proofs::Left::left_none, crate::proofs::Laws::counted, crate::proofs::Laws::nth_before))]
    fn next(&mut self) -> Option<Instruction> {
        let instruction = self.sheet.instruction(self.next)?;
        self.next += 1;
        Some(instruction)
    }
}
