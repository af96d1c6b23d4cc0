//! A table of 32 cells, each set to something or unset.
ghost use Rattle.std.specs.Prelude.{◌≡◌, replicate, None, Some, slice_index_or, slice_set};

use crate::cell_index::CellIndex;

/// The lines of a pad are such a table, and so are its flags.
#[derive(Drop)]
pub struct Table<T> {
    cells: [Option<T>; 32],
}

impl<T: Copy> Table<T> {
    /// A table with nothing set.
    pub(crate) fn new() -> Table<T>
        ensures { result.cells ≡ replicate 32 None }
    {
        Table { cells: [None; 32] }
    }

    /// What the cell is set to, if it is set.
    pub(crate) fn get(&self, i: CellIndex) -> Option<T>
        ensures { result ≡ slice_index_or self.now.cells i.at None }
    {
        self.cells[i.at as usize]
    }

    /// Sets that one cell and no other.
    pub(crate) fn set(&mut self, i: CellIndex, x: T)
        ensures { self.new.cells ≡ slice_set self.old.cells i.at (Some x) }
    {
        self.cells[i.at as usize] = Some(x);
    }
}
