//! The board of a pad: its lines and flags.
ghost use Rattle.std.specs.Prelude.{◌≡◌};
ghost use Rattle.pad.specs.Boards.{fresh, line_at, flag_at, with_line, with_flag};

use crate::cell_index::CellIndex;
use crate::table::Table;
use range::{Range, Verdict};

/// Lines 0 to 31 and flags 0 to 31, each set to something or unset.
#[derive(Drop)]
pub struct Board {
    lines: Table<Range>,
    flags: Table<Verdict>,
}

impl Board {
    /// A board with nothing set.
    pub(crate) fn new() -> Board
        ensures { result ≡ fresh }
    {
        Board {
            lines: Table::new(),
            flags: Table::new(),
        }
    }

    // two names for each of the two tables: a line is kept and a flag is marked
    /// The range of a line, if it is set.
    pub(crate) fn line(&self, a: CellIndex) -> Option<Range>
        ensures { result ≡ line_at self.now a.at }
    {
        self.lines.get(a)
    }

    /// The verdict of a flag, if it is set.
    pub(crate) fn flag(&self, a: CellIndex) -> Option<Verdict>
        ensures { result ≡ flag_at self.now a.at }
    {
        self.flags.get(a)
    }

    /// Sets that one line and no other.
    pub(crate) fn keep(&mut self, a: CellIndex, r: Range)
        ensures { self.new ≡ with_line self.old a.at r }
    {
        self.lines.set(a, r);
    }

    /// Sets that one flag and no other.
    pub(crate) fn mark(&mut self, a: CellIndex, v: Verdict)
        ensures { self.new ≡ with_flag self.old a.at v }
    {
        self.flags.set(a, v);
    }
}
