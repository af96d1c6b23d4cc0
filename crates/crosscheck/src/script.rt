//! The cases, and the calls of each.
use crate::damage::damaged_file;
use crate::dice::Dice;
use crate::draft::Draft;
use crate::entries::{doubtful_entry, entry};
use crate::ours::{self, SLOTS};
use crate::pair::Pair;
use crate::separate::answer::Shown;
use crate::separate::broken::Broken;
use crate::separate::marking::Marking;
use crate::separate::operation::Piles;
use crate::tally::{Call, Tally};
use scale::{ArithmeticScale, RuledScale, SlidingScale};
use std::alloc::{AllocError, Global};
use std::io;

/// What a case tries.
// no closure in its place: none is generic over the scale
#[derive(Clone, Copy)]
pub enum Case {
    /// One operation, on lines and constants.
    Single,
    /// Many operations, on each other's results.
    Mixed,
    /// A file that may break the rules.
    Damaged,
    /// Entries, lines and slots that may break the rules of the pad.
    Refused,
}

/// The throws that choose the cases, and what came of these so far.
#[derive(Drop)]
pub struct Script {
    heap: Global,
    dice: Dice,
    tally: Tally,
}

const MANY: u64 = SLOTS as u64;

const ENOUGH: Piles = Piles {
    ranges: MANY,
    verdicts: MANY,
};

// Often few slots for one of the piles or both.
fn few_slots(dice: &mut Dice) -> Piles {
    match dice.below(4) {
        0 => Piles {
            ranges: dice.below(6),
            ..ENOUGH
        },
        1 => Piles {
            verdicts: dice.below(3),
            ..ENOUGH
        },
        2 => Piles {
            ranges: dice.below(6),
            verdicts: dice.below(3),
        },
        _ => ENOUGH,
    }
}

impl Script {
    pub fn new(heap: Global) -> Script {
        Script {
            heap,
            dice: Dice::new(),
            tally: Tally::new(heap),
        }
    }

    /// Tries a division, which may be none.
    pub fn try_division(&mut self) -> Result<(), AllocError> {
        self.tally.begin();
        let division = match self.dice.below(3) {
            0 => self
                .dice
                .one_of(&[0, 1, 65535, 65536, 65537, 131072, 0xffff_ffff]),
            1 => self.dice.word() & 0x1ffff,
            _ => self.dice.word(),
        };
        let separate = match division {
            1..=65536 => Ok(Shown::Nothing),
            _ => Err(Broken::Division(division).into()),
        };
        self.tally.compare(Call::Division(division), ours::divided(division), separate)
    }

    /// Tries a case on a scale of its own.
    pub fn try_one(&mut self, case: Case) -> Result<(), AllocError> {
        self.tally.begin();
        if self.dice.one_in(3) {
            let mut pair = Pair::new(self.heap, SlidingScale, Marking::Sliding);
            return self.try_on(&mut pair, case);
        }
        let division = if self.dice.one_in(8) {
            (self.dice.word() & 0xffff) + 1
        } else {
            self.dice.one_of(&[1, 10, 100, 65536])
        };
        let Ok(scale) = RuledScale::new(division) else {
            return Ok(());
        };
        let mut pair = Pair::new(self.heap, scale, Marking::Ruled(division));
        self.try_on(&mut pair, case)
    }

    // A case on a pair with nothing set.
    fn try_on<S: ArithmeticScale>(
        &mut self,
        pair: &mut Pair<S>,
        case: Case,
    ) -> Result<(), AllocError> {
        match case {
            Case::Single => self.try_single(pair),
            Case::Mixed => self.try_mixed(pair),
            Case::Damaged => self.try_damaged(pair),
            Case::Refused => self.try_refused(pair),
        }
    }

    // Sets the first lines.
    fn enter_lines<S: ArithmeticScale>(
        &mut self,
        pair: &mut Pair<S>,
        lines: u8,
    ) -> Result<(), AllocError> {
        for line in 0..lines {
            pair.enter(&mut self.tally, line, entry(&mut self.dice))?;
        }
        Ok(())
    }

    fn try_single<S: ArithmeticScale>(&mut self, pair: &mut Pair<S>) -> Result<(), AllocError> {
        self.enter_lines(pair, 3)?;
        let mut draft = Draft::new(self.heap, 3);
        draft.add_single(&mut self.dice)?;
        let bytes = draft.finished_file(self.heap, &mut self.dice)?;
        pair.work(&mut self.tally, bytes.as_slice(), ENOUGH)?;
        pair.show(&mut self.tally)
    }

    fn try_mixed<S: ArithmeticScale>(&mut self, pair: &mut Pair<S>) -> Result<(), AllocError> {
        self.enter_lines(pair, 8)?;
        // a second sheet works on what the first has kept
        for _ in 0..2 {
            let mut draft = Draft::new(self.heap, 8);
            let count = 2 + self.dice.below(30);
            draft.add_mixed(&mut self.dice, count)?;
            let bytes = draft.finished_file(self.heap, &mut self.dice)?;
            pair.work(&mut self.tally, bytes.as_slice(), ENOUGH)?;
        }
        pair.show(&mut self.tally)
    }

    fn try_damaged<S: ArithmeticScale>(&mut self, pair: &mut Pair<S>) -> Result<(), AllocError> {
        self.enter_lines(pair, 32)?;
        let bytes = damaged_file(self.heap, &mut self.dice)?;
        pair.work(&mut self.tally, bytes.as_slice(), ENOUGH)?;
        pair.show(&mut self.tally)
    }

    // A file that may need many slots, or read lines that are not set.
    fn demanding_file(&mut self) -> Result<Vec<u8>, AllocError> {
        let deep = if self.dice.one_in(8) {
            // up to the slots that there are, and beyond
            Piles {
                ranges: self.dice.below(100),
                verdicts: self.dice.below(100),
            }
        } else {
            Piles::EMPTY
        };
        let lines = if self.dice.one_in(3) { 12 } else { 8 };
        let mut draft = Draft::new(self.heap, lines);
        draft.add_deep(deep)?;
        let count = 3 + self.dice.below(12);
        draft.add_mixed(&mut self.dice, count)?;
        draft.finished_file(self.heap, &mut self.dice)
    }

    fn try_refused<S: ArithmeticScale>(&mut self, pair: &mut Pair<S>) -> Result<(), AllocError> {
        self.enter_lines(pair, 8)?;
        for _ in 0..4 {
            let line = self.dice.byte_below(40);
            pair.enter(&mut self.tally, line, doubtful_entry(&mut self.dice))?;
        }
        let line = self.dice.byte();
        pair.enter(&mut self.tally, line, entry(&mut self.dice))?;
        let bytes = self.demanding_file()?;
        let slots = few_slots(&mut self.dice);
        pair.work(&mut self.tally, bytes.as_slice(), slots)?;
        pair.show(&mut self.tally)?;
        if self.dice.one_in(8) {
            pair.wipe();
            pair.show(&mut self.tally)?;
        }
        Ok(())
    }

    /// Prints what came of the cases.
    pub fn print(&self, rt: &impl Print) -> io::Result<()> {
        self.tally.print(rt)
    }
}
