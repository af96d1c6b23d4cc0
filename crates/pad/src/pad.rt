//! The pad and its calls. Every call accepts every input; one that is refused alters nothing.
ghost use Rattle.std.specs.Prelude.{◌≡◌, length};
ghost use Rattle.pad.specs.Boards.{fresh};
ghost use Rattle.pad.specs.Calls.{Does, answer, done, line_shown, flag_shown, enter, work, show_line, show_flag, wipe};
ghost use Rattle.pad.specs.Pads.{scale_of, board_of};
ghost use Rattle.pad.specs.Promises.{Promises};
ghost use Rattle.pad.specs.Space.{Left};

use crate::admission::admitted;
use crate::board::Board;
use crate::cell_index::CellIndex;
use crate::faults::PadFault;
use crate::working::{Machine, check_work};
use range::{Entry, Range, Verdict};
use scale::ArithmeticScale;
use sheet::ClearedSheet;

/// A pad: one arithmetic scale, and lines 0 to 31 and flags 0 to 31, all unset at first.
#[derive(Drop)]
pub struct Pad<S> {
    scale: S,
    board: Board,
}

// each call says that the scale stays: through `&mut self` it could change any field
impl<S: ArithmeticScale> Pad<S> {
    /// A pad with nothing set. What is promised of it holds after each call of every run.
    pub fn new(scale: S) -> Pad<S>
        ensures scale { scale_of result ≡ scale }
        ensures board { board_of result ≡ fresh }
        ensures promises { Promises (S.place scale) }
    {
        Pad {
            scale,
            board: Board::new(),
        }
    }

    /// The scale of the pad.
    pub fn scale(&self) -> &S
        ensures { result.now ≡ scale_of self.now }
    {
        &self.scale
    }

    /// Enters into the line: it becomes the hull of the numbers within the bounds.
    pub fn enter(&mut self, line: u8, entry: Entry) -> Result<(), PadFault>
        ensures does { Does (S.place (scale_of self.old)) (enter line entry) (board_of self.old) (answer (λ _. done) result) (board_of self.new) }
        ensures scale { scale_of self.new ≡ scale_of self.old }
    {
        let index = admitted(line, entry)?;
        self.board.keep(index, entry.hull(&self.scale));
        Ok(())
    }

    /// Works the sheet from empty piles on the two lists of slots, and leaves each slot blank or void.
    pub fn work(
        &mut self,
        sheet: &ClearedSheet,
        ranges: &mut [Range],
        verdicts: &mut [Verdict],
    ) -> Result<(), PadFault>
        ensures does { Does (S.place (scale_of self.old)) (work sheet.now (length ranges.old) (length verdicts.old)) (board_of self.old) (answer (λ _. done) result) (board_of self.new) }
        ensures slots { Left result ranges.old verdicts.old ranges.new verdicts.new }
        ensures scale { scale_of self.new ≡ scale_of self.old }
    {
        check_work(sheet, &self.board, ranges.len(), verdicts.len())?;
        Machine::new(&self.scale, ranges, verdicts).work(&mut self.board, sheet);
        ranges.fill(Range::blank());
        verdicts.fill(Verdict::Void);
        Ok(())
    }

    /// The codes of the line, or nothing where it is blank.
    pub fn show_line(&self, line: u8) -> Result<Option<Range>, PadFault>
        ensures { Does (S.place (scale_of self.now)) (show_line line) (board_of self.now) (answer line_shown result) (board_of self.now) }
    {
        let index = CellIndex::new(line).ok_or(PadFault::NoLine(line))?;
        let range = self.board.line(index).ok_or(PadFault::Unset(line))?;
        Ok((!range.is_blank(&self.scale)).then_some(range))
    }

    /// The verdict of the flag.
    pub fn show_flag(&self, flag: u8) -> Result<Verdict, PadFault>
        ensures { Does (S.place (scale_of self.now)) (show_flag flag) (board_of self.now) (answer flag_shown result) (board_of self.now) }
    {
        let index = CellIndex::new(flag).ok_or(PadFault::NoFlag(flag))?;
        self.board.flag(index).ok_or(PadFault::Unset(flag))
    }

    /// Unsets every line and flag.
    pub fn wipe(&mut self)
        ensures does { Does (S.place (scale_of self.old)) wipe (board_of self.old) done (board_of self.new) }
        ensures scale { scale_of self.new ≡ scale_of self.old }
    {
        self.board = Board::new();
    }
}
