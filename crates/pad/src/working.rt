//! Working a sheet on two piles and a board.
ghost use Rattle.std.specs.Prelude.{◌≡◌, [], length, None, Some, MatchResult};
ghost use Rattle.number.specs.Place.{Quotients};
ghost use Rattle.range.specs.Worked.{Binary};
ghost use Rattle.sheet.specs.Rules.{first_below};
ghost use Rattle.sheet.specs.Held.{instructions_of};
ghost use Rattle.pad.specs.Boards.{lines_set};
ghost use Rattle.pad.specs.Machines.{state_of, KeepsParts};
ghost use Rattle.pad.specs.Ready.{Ready};
ghost use Rattle.pad.specs.Faults.{pad_refusal};
ghost use Rattle.pad.specs.Refusals.{unset_refusal, work_refusal};
ghost use Rattle.pad.specs.Working.{Step, Works, tightest};

use crate::board::Board;
use crate::cell_index::CellIndex;
use crate::faults::PadFault;
use crate::pile::Pile;
use range::{
    Range, Verdict, at_most, constant, difference, equal, greater, join, less, lesser, meet,
    negation, parted, pick, product, quotient, square, sum,
};
use scale::ArithmeticScale;
use sheet::{ClearedSheet, Instruction};

/// What works a sheet on a scale: a pile for ranges and one for verdicts.
// the board is passed beside: in a struct, what it ends as would be lost to the proof where the struct is dropped
#[derive(Drop)]
pub struct Machine<'a, S> {
    scale: &'a S,
    ranges: Pile<'a, Range>,
    verdicts: Pile<'a, Verdict>,
}

impl<'a, S: ArithmeticScale> Machine<'a, S> {
    /// A machine with empty piles on the two lists of slots.
    pub(crate) fn new(
        scale: &'a S,
        ranges: &'a mut [Range],
        verdicts: &'a mut [Verdict],
    ) -> Machine<'a, S>
        ensures scale { result.scale.now ≡ scale.now }
        ensures ranges { result.ranges ≡ record { held = []; room = length ranges.old } }
        ensures verdicts { result.verdicts ≡ record { held = []; room = length verdicts.old } }
    {
        Machine {
            scale,
            ranges: Pile::over(ranges),
            verdicts: Pile::over(verdicts),
        }
    }

    // Works one instruction. Clearing has seen to it that nothing is wanting, so nothing is tested here.
    fn step(&mut self, board: &mut Board, instruction: Instruction)
        requires { Ready instruction self.old board.old }
        ensures step { Step (tightest (S.place self.old.scale.now)) instruction (state_of self.old board.old) (state_of self.new board.new) }
        ensures parts { KeepsParts self.old self.new }
    {
        let scale = self.scale;
        let ranges = &mut self.ranges;
        let verdicts = &mut self.verdicts;
        match instruction {
            Instruction::Line(a) => {
                let line = board.line(CellIndex::known(a)).unwrap();
                ranges.push(line.copy(scale));
            }
            Instruction::Constant(f) => ranges.push(constant(scale, f)),
            Instruction::Keep(a) => {
                let y = ranges.pop();
                board.keep(CellIndex::known(a), y.copy(scale));
            }
            Instruction::Flag(a) => {
                let v = verdicts.pop();
                board.mark(CellIndex::known(a), v);
            }
            Instruction::Again => {
                let y = ranges.pop().copy(scale);
                ranges.push(y);
                ranges.push(y);
            }
            Instruction::Plus => ranges.replace_two(|x, y| sum(scale, x, y)),
            Instruction::Minus => ranges.replace_two(|x, y| difference(scale, x, y)),
            Instruction::Times => ranges.replace_two(|x, y| product(scale, x, y)),
            // the clause is written since the check does not find it for this closure
            Instruction::Over => ranges.replace_two(
                |x, y| -> Range
                    ensures { Binary (S.place scale.entry.now) Quotients x y result }
                { quotient(scale, x, y) },
            ),
            Instruction::Parted => {
                let (x, y) = ranges.pop_two();
                let (negative, positive) = parted(scale, x, y);
                ranges.push(negative);
                ranges.push(positive);
            }
            Instruction::Negate => ranges.replace(|y| negation(scale, y)),
            Instruction::Square => ranges.replace(|y| square(scale, y)),
            Instruction::Lesser => ranges.replace_two(|x, y| lesser(scale, x, y)),
            Instruction::Greater => ranges.replace_two(|x, y| greater(scale, x, y)),
            Instruction::Join => ranges.replace_two(|x, y| join(scale, x, y)),
            Instruction::Meet => ranges.replace_two(|x, y| meet(scale, x, y)),
            Instruction::Less => verdicts.push(ranges.take_two(|x, y| less(scale, x, y))),
            Instruction::AtMost => verdicts.push(ranges.take_two(|x, y| at_most(scale, x, y))),
            Instruction::Equal => verdicts.push(ranges.take_two(|x, y| equal(scale, x, y))),
            Instruction::And => verdicts.replace_two(|x, y| x.and(y)),
            Instruction::Or => verdicts.replace_two(|x, y| x.or(y)),
            Instruction::Not => verdicts.replace(|v| v.not()),
            Instruction::Pick => {
                let v = verdicts.pop();
                ranges.replace_two(|x, y| pick(scale, v, x, y));
            }
        }
    }

    /// Works the instructions of a sheet in turn.
    // `whole` is asked since the proof knows the length of the array only where the board itself is at hand
    pub(crate) fn work(&mut self, board: &mut Board, sheet: &ClearedSheet)
        requires ranges { self.old.ranges.held ≡ [] }
        requires verdicts { self.old.verdicts.held ≡ [] }
        requires whole { length board.old.lines.cells ≡ 32 }
        requires provided { work_refusal (instructions_of sheet.now) (lines_set board.old) self.old.ranges.room self.old.verdicts.room ≡ None }
        ensures { Works (tightest (S.place self.old.scale.now)) (instructions_of sheet.now) board.old board.new }
    {
        for instruction in sheet.instructions() {
            self.step(board, instruction);
        }
    }
}

// Whether each line that the sheet reads first is set, or the lowest that is not.
fn check_lines(sheet: &ClearedSheet, board: &Board) -> Result<(), PadFault>
    ensures { MatchResult result (λ _. first_below (unset_refusal (instructions_of sheet.now) (lines_set board.now)) 32 ≡ None) (λ f. first_below (unset_refusal (instructions_of sheet.now) (lines_set board.now)) 32 ≡ Some (pad_refusal f)) }
{
    let wanting = (0..32).find(|a| sheet.reads(*a) && board.line(CellIndex::known(*a)).is_none());
    match wanting {
        Some(a) => Err(PadFault::Unset(a)),
        None => Ok(()),
    }
}

/// Whether the sheet can be worked on the board with so many slots, or the first rule that this breaks.
pub(crate) fn check_work(
    sheet: &ClearedSheet,
    board: &Board,
    ranges: usize,
    verdicts: usize,
) -> Result<(), PadFault>
    ensures { MatchResult result (λ _. work_refusal (instructions_of sheet.now) (lines_set board.now) ranges verdicts ≡ None) (λ f. work_refusal (instructions_of sheet.now) (lines_set board.now) ranges verdicts ≡ Some (pad_refusal f)) }
{
    check_lines(sheet, board)?;
    // the two checks differ in the depth, the list and the fault: a function of the three would be called twice with all of them
    let needed = sheet.range_depth();
    if ranges < needed {
        return Err(PadFault::RangeSlots(needed));
    }
    let needed = sheet.verdict_depth();
    if verdicts < needed {
        return Err(PadFault::VerdictSlots(needed));
    }
    Ok(())
}
