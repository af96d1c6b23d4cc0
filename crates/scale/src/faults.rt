//! The faults of the layer scale.
ghost use Rattle.scale.specs.Faults.{scale_refusal};

use fault::{Fault, Layer, Refusal};

/// Why a scale is refused.
#[derive(Clone, Copy, PartialEq, Eq, Debug)]
pub enum ScaleFault {
    /// The division is 0 or over 65,536.
    Division(u32),
}

impl Fault for ScaleFault {
    ghost told = { scale_refusal };

    fn refusal(&self) -> Refusal {
        match self {
            ScaleFault::Division(d) => Refusal::new(Layer::Scale, 12, u64::from(*d)),
        }
    }
}
