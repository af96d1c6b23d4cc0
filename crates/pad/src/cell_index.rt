//! Which cell of a table: 0 to 31.
ghost use Rattle.std.specs.Prelude.{◌≡◌, ◌<◌, ◌≤◌, MatchOption};

/// The number of a line or of a flag.
#[derive(Clone, Copy)]
pub struct CellIndex {
    pub(crate) at: u8,
    ghost within: { at ≤ 31 },
}

impl CellIndex {
    /// The greatest line, and the greatest flag.
    const LAST: u8 = 31;

    // no `TryFrom`: which refusal a number beyond is, a line or a flag, its caller knows
    /// The cell of the number, if there is one.
    pub(crate) fn new(at: u8) -> Option<CellIndex>
        ensures { MatchOption result (31 < at) (λ i. i.at ≡ at) }
    {
        if at > CellIndex::LAST {
            return None;
        }
        Some(CellIndex { at })
    }

    /// The cell of a number that is known to be one, so that nothing is tested.
    pub(crate) fn known(at: u8) -> CellIndex
        requires { at ≤ 31 }
        ensures { result.at ≡ at }
    {
        CellIndex { at }
    }
}
