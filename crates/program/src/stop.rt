//! Why there is no text.
ghost use Rattle.std.specs.Prelude.{◌≡◌};
ghost use Rattle.program.specs.declared.faults.ProgramFault.TheVariants.{Scale};
ghost use Rattle.program.specs.declared.stop.Stop.TheVariants.{Fault, Memory};

use crate::faults::ProgramFault;
use scale::ScaleFault;
use std::alloc::AllocError;

// A fault, which is printed, or want of memory.
pub(crate) enum Stop {
    Fault(ProgramFault),
    Memory(AllocError),
}

impl From<ProgramFault> for Stop {
    ghost from_gives = { λ f r. r ≡ Fault f };

    fn from(f: ProgramFault) -> Stop {
        Stop::Fault(f)
    }
}

impl From<ScaleFault> for Stop {
    ghost from_gives = { λ f r. r ≡ Fault (Scale f) };

    fn from(f: ScaleFault) -> Stop {
        Stop::Fault(ProgramFault::Scale(f))
    }
}

impl From<AllocError> for Stop {
    ghost from_gives = { λ e r. r ≡ Memory e };

    fn from(e: AllocError) -> Stop {
        Stop::Memory(e)
    }
}
