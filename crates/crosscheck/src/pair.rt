//! The pad and the desk side by side: every call goes to both, and the answers are compared.
use crate::ours;
use crate::separate::answer::Shown;
use crate::separate::desk::Desk;
use crate::separate::entry::Entered;
use crate::separate::marking::Marking;
use crate::separate::operation::Piles;
use crate::tally::{Call, Kind, Tally};
use pad::Pad;
use scale::ArithmeticScale;
use std::alloc::{AllocError, Global};

#[derive(Drop)]
pub struct Pair<S> {
    pad: Pad<S>,
    desk: Desk,
    marking: Marking,
}

impl<S: ArithmeticScale> Pair<S> {
    /// Both with nothing set; the marking is that of the scale.
    pub fn new(heap: Global, scale: S, marking: Marking) -> Pair<S> {
        Pair {
            pad: Pad::new(scale),
            desk: Desk::new(heap, marking),
            marking,
        }
    }

    // the tally is no part of a pair: it counts over all pairs
    pub fn enter(&mut self, tally: &mut Tally, line: u8, entry: Entered) -> Result<(), AllocError> {
        let ours = ours::entered(&mut self.pad, line, entry);
        let separate = self.desk.enter(line, entry);
        tally.compare(Call::Enter(line), ours, separate)
    }

    pub fn work(
        &mut self,
        tally: &mut Tally,
        bytes: &[u8],
        slots: Piles,
    ) -> Result<(), AllocError> {
        let ours = ours::worked(&mut self.pad, bytes, slots);
        let separate = self.desk.work(bytes, slots)?;
        if separate.is_ok() {
            tally.count_sheet(bytes)?;
        }
        tally.compare(Call::Work, ours, separate)
    }

    fn show_line(&self, tally: &mut Tally, line: u8) -> Result<(), AllocError> {
        let ours = ours::shown_line(&self.pad, line);
        if let Ok(Shown::Ends(lower, upper)) = ours {
            let last = self.marking.last();
            tally.count_line(Kind::of(lower < last.wrapping_neg(), last < upper))?;
        }
        tally.compare(Call::Line(line), ours, self.desk.show_line(line))
    }

    fn show_flag(&self, tally: &mut Tally, flag: u8) -> Result<(), AllocError> {
        let ours = ours::shown_flag(&self.pad, flag);
        tally.compare(Call::Flag(flag), ours, self.desk.show_flag(flag))
    }

    /// Every line and flag, and those just beyond the last.
    pub fn show(&self, tally: &mut Tally) -> Result<(), AllocError> {
        for cell in 0..33u8 {
            self.show_line(tally, cell)?;
            self.show_flag(tally, cell)?;
        }
        Ok(())
    }

    pub fn wipe(&mut self) {
        self.pad.wipe();
        self.desk.wipe();
    }
}
