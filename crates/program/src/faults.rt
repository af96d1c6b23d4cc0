//! The faults of the layer program, and those that it carries up whole.
ghost use Rattle.std.specs.Prelude.{◌≡◌};
ghost use Rattle.program.specs.declared.faults.ProgramFault.TheVariants.{Scale, Filing, Clearing, Pad};
ghost use Rattle.program.specs.Faults.{program_refusal};

use fault::{Fault, Layer, Refusal};
use pad::PadFault;
use scale::ScaleFault;
use sheet::{ClearingFault, FilingFault, Uncleared};

/// Why the program stops.
#[derive(Clone, Copy, PartialEq, Eq, Debug)]
pub enum ProgramFault {
    // one variant: the four are one rule of the input, and tell the same
    /// The input is empty, its count is over 32, it ends within this entry, or the entry's kind is over 4.
    Input(u64),
    Scale(ScaleFault),
    Filing(FilingFault),
    Clearing(ClearingFault),
    Pad(PadFault),
}

impl From<ScaleFault> for ProgramFault {
    ghost from_gives = { λ f r. r ≡ Scale f };

    fn from(fault: ScaleFault) -> ProgramFault {
        ProgramFault::Scale(fault)
    }
}

impl From<FilingFault> for ProgramFault {
    ghost from_gives = { λ f r. r ≡ Filing f };

    fn from(fault: FilingFault) -> ProgramFault {
        ProgramFault::Filing(fault)
    }
}

impl<'a> From<Uncleared<'a>> for ProgramFault {
    ghost from_gives = { λ u r. r ≡ Clearing u.fault };

    fn from(uncleared: Uncleared<'a>) -> ProgramFault {
        ProgramFault::Clearing(uncleared.fault)
    }
}

impl From<PadFault> for ProgramFault {
    ghost from_gives = { λ f r. r ≡ Pad f };

    fn from(fault: PadFault) -> ProgramFault {
        ProgramFault::Pad(fault)
    }
}

impl Fault for ProgramFault {
    ghost told = { program_refusal };

    fn refusal(&self) -> Refusal {
        match self {
            ProgramFault::Input(entry) => Refusal::new(Layer::Program, 13, *entry),
            ProgramFault::Scale(f) => f.refusal(),
            ProgramFault::Filing(f) => f.refusal(),
            ProgramFault::Clearing(f) => f.refusal(),
            ProgramFault::Pad(f) => f.refusal(),
        }
    }
}
