//! The pad's answers, brought into the form of the separate code.
use crate::separate::answer::{self, Answer, Refused, Shown};
use crate::separate::entry::{Entered, Written};
use crate::separate::operation::Piles;
use crate::separate::truths::Truths;
use fault::{Fault, Layer, Refusal};
use number::Fraction;
use pad::Pad;
use range::{Entry, Range, Verdict};
use scale::{ArithmeticScale, RuledScale};
use sheet::{ClearedSheet, FiledSheet};

/// The most slots of each kind that are lent.
pub const SLOTS: usize = 64;

impl From<Layer> for answer::Layer {
    fn from(layer: Layer) -> answer::Layer {
        match layer {
            Layer::Filing => answer::Layer::Filing,
            Layer::Clearing => answer::Layer::Clearing,
            Layer::Pad => answer::Layer::Pad,
            Layer::Scale => answer::Layer::Scale,
            Layer::Program => answer::Layer::Other,
        }
    }
}

impl From<Refusal> for Refused {
    fn from(refusal: Refusal) -> Refused {
        Refused {
            layer: refusal.layer.into(),
            number: refusal.number,
            place: refusal.place,
        }
    }
}

impl From<Range> for Shown {
    fn from(range: Range) -> Shown {
        Shown::Ends(range.lower, range.upper)
    }
}

impl From<Verdict> for Truths {
    fn from(verdict: Verdict) -> Truths {
        let (yes, no) = match verdict {
            Verdict::Certain => (true, false),
            Verdict::Impossible => (false, true),
            Verdict::Open => (true, true),
            Verdict::Void => (false, false),
        };
        Truths { yes, no }
    }
}

impl From<Written> for Fraction {
    fn from(written: Written) -> Fraction {
        let Written { p, q } = written;
        Fraction { p, q }
    }
}

impl From<Entered> for Entry {
    fn from(entered: Entered) -> Entry {
        match entered {
            Entered::Blank => Entry::Blank,
            Entered::Bounds(lower, upper) => {
                Entry::Bounds(lower.map(Fraction::from), upper.map(Fraction::from))
            }
        }
    }
}

// What a fault of any layer tells.
fn refused<F: Fault + Drop>(fault: F) -> Refused {
    fault.refusal().into()
}

/// Whether there is a ruled scale with the division.
pub fn divided(division: u32) -> Answer {
    RuledScale::new(division).map_err(refused)?;
    Ok(Shown::Nothing)
}

pub fn entered<S: ArithmeticScale>(pad: &mut Pad<S>, line: u8, entry: Entered) -> Answer {
    pad.enter(line, entry.into()).map_err(refused)?;
    Ok(Shown::Nothing)
}

pub fn shown_line<S: ArithmeticScale>(pad: &Pad<S>, line: u8) -> Answer {
    let range = pad.show_line(line).map_err(refused)?;
    Ok(range.map_or(Shown::Blank, Shown::from))
}

pub fn shown_flag<S: ArithmeticScale>(pad: &Pad<S>, flag: u8) -> Answer {
    let verdict = pad.show_flag(flag).map_err(refused)?;
    Ok(Shown::Truths(verdict.into()))
}

// Works on slots that hold something before: they are swept afterwards, or not touched where the sheet is refused.
fn worked_on<S: ArithmeticScale>(
    pad: &mut Pad<S>,
    sheet: &ClearedSheet,
    ranges: &mut [Range],
    verdicts: &mut [Verdict],
) -> Answer {
    let result = pad.work(sheet, ranges, verdicts);
    let (range, verdict) = match result {
        Ok(()) => (Range::blank(), Verdict::Void),
        Err(_) => (Range::new(1, 2), Verdict::Open),
    };
    let is_tidy = ranges.iter().all(|r| *r == range) && verdicts.iter().all(|v| *v == verdict);
    if !is_tidy {
        return Ok(Shown::Untidy);
    }
    result.map_err(refused)?;
    Ok(Shown::Nothing)
}

/// Files, clears and works the bytes with so many slots.
pub fn worked<S: ArithmeticScale>(pad: &mut Pad<S>, bytes: &[u8], slots: Piles) -> Answer {
    let filed = FiledSheet::file(bytes).map_err(refused)?;
    let sheet = filed.clear().map_err(|uncleared| refused(uncleared.fault))?;
    let mut ranges = [Range::new(1, 2); SLOTS];
    let mut verdicts = [Verdict::Open; SLOTS];
    worked_on(
        pad,
        &sheet,
        &mut ranges[..SLOTS.min(slots.ranges as usize)],
        &mut verdicts[..SLOTS.min(slots.verdicts as usize)],
    )
}
