//! Sheets: a file is filed, then cleared. Each borrows the file's bytes.
ghost use Rattle.std.specs.Prelude.{◌≡◌, false, is_some};
ghost use Rattle.sheet.specs.Files.{constants_in, instructions_in};
ghost use Rattle.sheet.specs.Filing.{filing};
ghost use Rattle.sheet.specs.Clearing.{clearing};
ghost use Rattle.sheet.specs.Tallies.{Tallied};

use crate::faults::{ClearingFault, FilingFault};
use crate::filed::{Trailer, chunks_at};
use crate::instruction::Instruction;
use crate::instructions::Instructions;
use crate::operation::Operation;
use crate::tally::Tally;

/// A file whose parts lie where its trailer says.
#[derive(Drop)]
pub struct FiledSheet<'a> {
    pub(crate) bytes: &'a [u8],
    pub(crate) constants: &'a [[u8; 8]],
    pub(crate) instructions: &'a [[u8; 2]],
    ghost filed: { is_some (filing bytes.now) ≡ false },
    ghost constants_laid: { constants.now ≡ constants_in bytes.now },
    ghost instructions_laid: { instructions.now ≡ instructions_in bytes.now },
}

/// A filed sheet that keeps the rules on constants and instructions: it can be worked.
#[derive(Drop)]
pub struct ClearedSheet<'a> {
    sheet: FiledSheet<'a>,
    tally: Tally,
    ghost cleared: { is_some (clearing sheet.bytes.now) ≡ false },
    ghost tallied: { Tallied sheet.bytes.now tally },
}

/// A sheet that is not cleared: still filed, as it was, and the first rule that it breaks.
#[derive(Drop)]
pub struct Uncleared<'a> {
    pub sheet: FiledSheet<'a>,
    pub fault: ClearingFault,
}

impl<'a> FiledSheet<'a> {
    ghost use Rattle.std.specs.Prelude.{Some, None, MatchResult};
    ghost use Rattle.sheet.specs.Faults.{filing_refusal, clearing_refusal};
    ghost use Rattle.sheet.specs.Workable.{Workable};
    ghost use Rattle.sheet.specs.Held.{filed_bytes, cleared_bytes, instructions_of};

    /// Files the bytes, or tells the first rule that they break.
    #[tactic(auto, using(crate::proofs::Accepted::lies), unfolding(crate::specs::Files::constants_start, crate::specs::Files::instructions_start))]
    pub fn file(bytes: &'a [u8]) -> Result<FiledSheet<'a>, FilingFault>
        ensures { MatchResult result (λ s. (filing bytes.now ≡ None) × (filed_bytes s ≡ bytes.now)) (λ f. filing bytes.now ≡ Some (filing_refusal f)) }
    {
        let length = bytes.len();
        let trailer = Trailer::of(bytes)?;
        trailer.check(length)?;
        Ok(FiledSheet {
            bytes,
            constants: chunks_at(
                bytes,
                length - trailer.constant_distance as usize,
                usize::from(trailer.constants),
            ),
            instructions: chunks_at(
                bytes,
                length - trailer.instruction_distance as usize,
                usize::from(trailer.instructions),
            ),
        })
    }

    /// Clears the sheet, or hands it back with the first rule that it breaks.
    pub fn clear(self) -> Result<ClearedSheet<'a>, Uncleared<'a>>
        ensures { MatchResult result (λ s. (clearing (filed_bytes self.entry) ≡ None) × (cleared_bytes s ≡ filed_bytes self.entry) × Workable (instructions_of s)) (λ u. (clearing (filed_bytes self.entry) ≡ Some (clearing_refusal u.fault)) × (filed_bytes u.sheet ≡ filed_bytes self.entry)) }
    {
        match self.look_through() {
            Ok(tally) => Ok(ClearedSheet { sheet: self, tally }),
            Err(fault) => Err(Uncleared { sheet: self, fault }),
        }
    }

    /// The bytes, back again.
    pub fn into_bytes(self) -> &'a [u8]
        ensures { result.now ≡ filed_bytes self.entry }
    {
        self.bytes
    }
}

impl<'a> ClearedSheet<'a> {
    ghost use Rattle.std.specs.Prelude.{length};
    ghost use Rattle.std.specs.List.{slice_get};
    ghost use Rattle.sheet.specs.Depths.{greatest_range_depth, greatest_verdict_depth};
    ghost use Rattle.sheet.specs.Lines.{reads_first};
    ghost use Rattle.sheet.specs.Held.{cleared_bytes, instructions_of, instructions_left};

    /// How many instructions there are.
    pub fn len(&self) -> usize
        ensures { result ≡ length (instructions_of self.now) }
    {
        self.sheet.instructions.len()
    }

    /// The instruction at the index; none from the end on.
    #[tactic(auto, using(crate::proofs::Reading::past, crate::proofs::Reading::constant_there, crate::proofs::Reading::found))]
    pub fn instruction(&self, i: usize) -> Option<Instruction>
        ensures { result ≡ slice_get (instructions_of self.now) i }
    {
        let [byte, argument] = *self.sheet.instructions.get(i)?;
        // clearing has found an operation at every instruction
        let operation = Operation::try_from(byte).unwrap();
        Some(Instruction::of(operation, argument, self.sheet.constants))
    }

    /// The instructions in turn.
    pub fn instructions(&self) -> Instructions<'_>
        ensures { instructions_left result ≡ instructions_of self.now }
    {
        Instructions {
            sheet: self,
            next: 0,
        }
    }

    /// The greatest depth of the pile of ranges.
    pub fn range_depth(&self) -> usize
        ensures { result ≡ greatest_range_depth (instructions_of self.now) }
    {
        self.tally.ranges.greatest
    }

    /// The greatest depth of the pile of verdicts.
    pub fn verdict_depth(&self) -> usize
        ensures { result ≡ greatest_verdict_depth (instructions_of self.now) }
    {
        self.tally.verdicts.greatest
    }

    /// Whether the sheet reads the line before it keeps it.
    pub fn reads(&self, line: u8) -> bool
        ensures { result ≡ reads_first (instructions_of self.now) line }
    {
        self.tally.reads_first(line)
    }

    /// The bytes, back again.
    pub fn into_bytes(self) -> &'a [u8]
        ensures { result.now ≡ cleared_bytes self.entry }
    {
        self.sheet.into_bytes()
    }
}
