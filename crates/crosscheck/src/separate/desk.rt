//! The desk stands beside the pad: it takes the same calls.
use super::answer::{Answer, Shown};
use super::broken::Broken;
use super::entry::{Entered, Written, admitted};
use super::filing::{Filed, Instruction};
use super::marking::Marking;
use super::operation::{Operation, Piles};
use super::span::{Held, Span, rounded};
use super::truths::Truths;
use super::{clearing, filing, span, truths};
use std::alloc::{AllocError, Global};

/// Lines and flags, each unset at first, and the two piles.
#[derive(Drop)]
pub struct Desk {
    marking: Marking,
    lines: [Option<Held>; 32],
    flags: [Option<Truths>; 32],
    ranges: Vec<Held>,
    verdicts: Vec<Truths>,
}

// What the line or the flag is set to.
fn set_to<T: Copy>(cells: &[Option<T>], cell: u8) -> Result<T, Broken> {
    let content = cells.get(usize::from(cell)).ok_or(Broken::Cell(cell))?;
    content.ok_or(Broken::Unset(cell))
}

impl Desk {
    pub fn new(heap: Global, marking: Marking) -> Desk {
        Desk {
            marking,
            lines: [None; 32],
            flags: [None; 32],
            ranges: Vec::new(heap),
            verdicts: Vec::new(heap),
        }
    }

    /// Unsets every line and flag.
    pub fn wipe(&mut self) {
        self.lines = [None; 32];
        self.flags = [None; 32];
    }

    /// Enters into the line.
    pub fn enter(&mut self, line: u8, entry: Entered) -> Answer {
        let held = admitted(line, entry)?;
        self.keep(line, held);
        Ok(Shown::Nothing)
    }

    /// What a line holds.
    pub fn show_line(&self, line: u8) -> Answer {
        match self.line(line)? {
            Some(span) => {
                let (lower, upper) = span.codes(self.marking);
                Ok(Shown::Ends(lower, upper))
            }
            None => Ok(Shown::Blank),
        }
    }

    /// What a flag allows.
    pub fn show_flag(&self, flag: u8) -> Answer {
        Ok(Shown::Truths(set_to(&self.flags, flag)?))
    }

    /// Files, clears and works the bytes with so many slots.
    pub fn work(&mut self, bytes: &[u8], slots: Piles) -> Result<Answer, AllocError> {
        let filed = match self.ready(bytes, slots) {
            Ok(filed) => filed,
            Err(broken) => return Ok(Err(broken.into())),
        };
        for bytes in filed.instructions {
            self.step(filed, Instruction::from(*bytes))?;
        }
        Ok(Ok(Shown::Nothing))
    }

    // A sheet that can be worked.
    fn ready<'a>(&self, bytes: &'a [u8], slots: Piles) -> Result<Filed<'a>, Broken> {
        let filed = filing::file(bytes)?;
        let depths = clearing::clear(filed)?;
        for (line, content) in (0..32u8).zip(self.lines.iter()) {
            if content.is_none() && clearing::is_read_first(filed, line) {
                return Err(Broken::Unset(line));
            }
        }
        if slots.ranges < depths.ranges {
            return Err(Broken::RangeSlots(depths.ranges));
        }
        if slots.verdicts < depths.verdicts {
            return Err(Broken::VerdictSlots(depths.verdicts));
        }
        Ok(filed)
    }

    fn line(&self, line: u8) -> Result<Held, Broken> {
        set_to(&self.lines, line)
    }

    // Rounds the range and sets the line to it.
    fn keep(&mut self, line: u8, exact: Held) {
        let held = rounded(self.marking, exact);
        if let Some(content) = self.lines.get_mut(usize::from(line)) {
            *content = Some(held);
        }
    }

    // Rounds the range and puts it onto its pile.
    // each pile has functions of its own: ranges are rounded where they are put, verdicts are not
    fn put(&mut self, exact: Held) -> Result<(), AllocError> {
        self.ranges.push(rounded(self.marking, exact))?;
        Ok(())
    }

    fn put_verdict(&mut self, verdict: Truths) -> Result<(), AllocError> {
        self.verdicts.push(verdict)?;
        Ok(())
    }

    // Clearing has seen to it that the operands are there; a blank in place of one would show.
    fn take(&mut self) -> Held {
        self.ranges.pop().flatten()
    }

    fn take_two(&mut self) -> (Held, Held) {
        let y = self.take();
        let x = self.take();
        (x, y)
    }

    fn take_verdict(&mut self) -> Truths {
        self.verdicts.pop().unwrap_or(Truths::NONE)
    }

    // Makes one range of two.
    fn join_ranges<F: FnOnce(Held, Held) -> Held>(&mut self, operation: F) -> Result<(), AllocError>
        requires { F.IsAlwaysCallable operation }
    {
        let (x, y) = self.take_two();
        self.put(operation(x, y))
    }

    // Makes a verdict of two ranges.
    fn compare<F: FnOnce(Held, Held) -> Truths>(&mut self, comparison: F) -> Result<(), AllocError>
        requires { F.IsAlwaysCallable comparison }
    {
        let (x, y) = self.take_two();
        self.put_verdict(comparison(x, y))
    }

    // Makes one verdict of two.
    fn join_verdicts<F: FnOnce(Truths, Truths) -> Truths>(
        &mut self,
        operation: F,
    ) -> Result<(), AllocError>
        requires { F.IsAlwaysCallable operation }
    {
        let y = self.take_verdict();
        let x = self.take_verdict();
        self.put_verdict(operation(x, y))
    }

    // Works the instruction.
    fn step(&mut self, filed: Filed, instruction: Instruction) -> Result<(), AllocError> {
        let argument = instruction.argument;
        // clearing has refused what is no operation
        let Some(operation) = instruction.operation else {
            return Ok(());
        };
        match operation {
            Operation::Line => self.put(self.line(argument).unwrap_or(None)),
            Operation::Constant => {
                let number = filed
                    .constants
                    .get(usize::from(argument))
                    .and_then(|bytes| Written::from(*bytes).value());
                self.put(number.map(Span::point))
            }
            Operation::Keep => {
                let y = self.take();
                self.keep(argument, y);
                Ok(())
            }
            Operation::Plus => self.join_ranges(span::sum),
            Operation::Minus => self.join_ranges(span::difference),
            Operation::Times => self.join_ranges(span::product),
            Operation::Over => self.join_ranges(span::quotient),
            Operation::Parted => {
                let (x, y) = self.take_two();
                let (by_negative, by_positive) = span::parted(x, y);
                self.put(by_negative)?;
                self.put(by_positive)
            }
            Operation::Negate => {
                let y = self.take();
                self.put(span::negation(y))
            }
            Operation::Square => {
                let y = self.take();
                self.put(span::square(y))
            }
            Operation::Lesser => self.join_ranges(span::lesser),
            Operation::Greater => self.join_ranges(span::greater),
            Operation::Join => self.join_ranges(span::join),
            Operation::Meet => self.join_ranges(span::meet),
            Operation::Again => {
                let y = self.take();
                self.put(y)?;
                self.put(y)
            }
            Operation::Less => self.compare(truths::less),
            Operation::AtMost => self.compare(truths::at_most),
            Operation::Equal => self.compare(truths::equal),
            Operation::And => self.join_verdicts(truths::both),
            Operation::Or => self.join_verdicts(truths::either),
            Operation::Not => {
                let v = self.take_verdict();
                self.put_verdict(truths::opposite(v))
            }
            Operation::Pick => {
                let v = self.take_verdict();
                self.join_ranges(|x, y| span::pick(v, x, y))
            }
            Operation::Flag => {
                let v = self.take_verdict();
                if let Some(content) = self.flags.get_mut(usize::from(argument)) {
                    *content = Some(v);
                }
                Ok(())
            }
        }
    }
}
