//! The faults of the layer pad.
ghost use Rattle.pad.specs.Faults.{pad_refusal};

use fault::{Fault, Layer, Refusal};

/// Why the pad refuses a call.
#[derive(Clone, Copy, PartialEq, Eq, Debug)]
pub enum PadFault {
    /// There is no such line: lines go from 0 to 31.
    NoLine(u8),
    /// There is no such flag: flags go from 0 to 31.
    NoFlag(u8),
    /// The lower bound's fraction has no value.
    LowerBound,
    /// The upper bound's fraction has no value.
    UpperBound,
    /// The lower bound is above the upper one, in an entry into this line.
    Crossed(u8),
    /// The line or flag is shown and is unset, or the line is read by a sheet that has not kept it before and is unset.
    Unset(u8),
    /// The sheet needs so many slots for ranges.
    RangeSlots(usize),
    /// The sheet needs so many slots for verdicts.
    VerdictSlots(usize),
}

impl Fault for PadFault {
    ghost told = { pad_refusal };

    fn refusal(&self) -> Refusal {
        match self {
            PadFault::NoLine(line) => Refusal::new(Layer::Pad, 9, u64::from(*line)),
            PadFault::NoFlag(flag) => Refusal::new(Layer::Pad, 9, u64::from(*flag)),
            PadFault::LowerBound => Refusal::new(Layer::Pad, 10, 0),
            PadFault::UpperBound => Refusal::new(Layer::Pad, 10, 1),
            PadFault::Crossed(line) => Refusal::new(Layer::Pad, 11, u64::from(*line)),
            PadFault::Unset(at) => Refusal::new(Layer::Pad, 14, u64::from(*at)),
            PadFault::RangeSlots(needed) => Refusal::new(Layer::Pad, 15, *needed as u64),
            PadFault::VerdictSlots(needed) => Refusal::new(Layer::Pad, 16, *needed as u64),
        }
    }
}
