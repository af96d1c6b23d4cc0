//! What clearing finds out of a sheet, besides that it keeps the rules.
ghost use Rattle.std.specs.Prelude.{◌≡◌, ℕ, ◌^◌, ◌<◌, ◌≤◌, max, slice_index_or};
ghost use Rattle.sheet.specs.declared.operation.Operation.TheVariants.{Line, Keep};
ghost use Rattle.sheet.specs.declared.tally.FirstUse.TheVariants.{Unnamed};
ghost use Rattle.sheet.specs.Operations.{shape};
ghost use Rattle.sheet.specs.Depths.{after};
ghost use Rattle.sheet.specs.Lines.{is_on};
ghost use Rattle.sheet.specs.Tallies.{start, is_read, is_unnamed, used, After};

use crate::operation::{Move, Operation};

/// How deep a pile is, and the deepest that it has been.
#[derive(Clone, Copy)]
pub struct Depth {
    pub now: usize,
    pub greatest: usize,
}

/// What the first instruction that names a line does with it.
// no `Option` of it: that is two bytes, and every cleared sheet holds 32
#[derive(Clone, Copy)]
pub enum FirstUse {
    /// No instruction has named it.
    Unnamed,
    Read,
    Kept,
}

/// What the instructions so far do: to each pile, and first of all to each line.
#[derive(Clone, Copy)]
pub struct Tally {
    pub ranges: Depth,
    pub verdicts: Depth,
    pub first_uses: [FirstUse; 32],
}

impl Depth {
    fn after(self, step: Move) -> Depth
        requires takes { step.takes ≤ self.«now» }
        requires fits { after step self.«now» < 2 ^ 64 }
        ensures depth { result.«now» ≡ after step self.«now» }
        ensures greatest { result.greatest ≡ max self.greatest (after step self.«now») }
    {
        let now = self.now - step.takes + step.puts;
        Depth {
            now,
            greatest: self.greatest.max(now),
        }
    }
}

impl FirstUse {
    fn is_unnamed(self) -> bool
        ensures { result ≡ is_unnamed self }
    {
        matches!(self, FirstUse::Unnamed)
    }
}

// Notes what one operation more does first to a line.
fn use_line(first_uses: &mut [FirstUse; 32], operation: Operation, argument: u8)
    requires line { operation ≡ Line → argument ≤ 31 }
    requires keep { operation ≡ Keep → argument ≤ 31 }
    ensures { (a : ℕ) → slice_index_or first_uses.new a Unnamed ≡ used (slice_index_or first_uses.old a Unnamed) (is_on operation argument Line a) (is_on operation argument Keep a) }
{
    let line = argument as usize;
    match operation {
        Operation::Line if first_uses[line].is_unnamed() => first_uses[line] = FirstUse::Read,
        Operation::Keep if first_uses[line].is_unnamed() => first_uses[line] = FirstUse::Kept,
        _ => {}
    }
}

impl Tally {
    /// Before the first instruction.
    pub fn new() -> Tally
        ensures { result ≡ start }
    {
        let empty = Depth {
            now: 0,
            greatest: 0,
        };
        Tally {
            ranges: empty,
            verdicts: empty,
            first_uses: [FirstUse::Unnamed; 32],
        }
    }

    // what an argument may be depends on its operation, and clearing has just looked: a struct of both would be made here to be taken apart
    // changed in place: copied for each instruction, the table would wait for what was just written to it
    /// Takes one operation more.
    pub fn add(&mut self, operation: Operation, argument: u8)
        requires enough_ranges { (shape operation).ranges.takes ≤ self.old.ranges.«now» }
        requires enough_verdicts { (shape operation).verdicts.takes ≤ self.old.verdicts.«now» }
        requires ranges_fit { after (shape operation).ranges self.old.ranges.«now» < 2 ^ 64 }
        requires verdicts_fit { after (shape operation).verdicts self.old.verdicts.«now» < 2 ^ 64 }
        requires line { operation ≡ Line → argument ≤ 31 }
        requires keep { operation ≡ Keep → argument ≤ 31 }
        ensures { After self.old operation argument self.new }
    {
        let shape = operation.shape();
        self.ranges = self.ranges.after(shape.ranges);
        self.verdicts = self.verdicts.after(shape.verdicts);
        use_line(&mut self.first_uses, operation, argument);
    }

    /// Whether the line is read before it is kept: no line over 31 is.
    pub fn reads_first(&self, line: u8) -> bool
        ensures { result ≡ is_read (slice_index_or self.now.first_uses line Unnamed) }
    {
        matches!(self.first_uses.get(usize::from(line)), Some(FirstUse::Read))
    }
}
