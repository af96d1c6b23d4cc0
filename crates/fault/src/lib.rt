//! What every refusal tells, whichever layer refuses.
#![tactic(auto)]

ghost use Rattle.std.specs.Prelude.{◌≡◌, Some};
ghost use Rattle.fault.specs.Layers.{layer_name};
ghost use Rattle.fault.specs.Told.{refused, refusal_name};
ghost use Rattle.fault.specs.declared.Refusal.{Refusal as Told};

use std::fmt;

/// The layers that refuse.
#[derive(Clone, Copy, PartialEq, Eq, Debug)]
pub enum Layer {
    Filing,
    Clearing,
    Pad,
    Scale,
    Program,
}

impl Layer {
    /// The name that is printed.
    pub fn name(self) -> &'static str
        ensures { result.now ≡ layer_name self }
    {
        match self {
            Layer::Filing => "filing",
            Layer::Clearing => "clearing",
            Layer::Pad => "pad",
            Layer::Scale => "scale",
            Layer::Program => "program",
        }
    }
}

/// Its name.
impl fmt::Display for Layer {
    ghost output = { λ l. Some (layer_name l) };

    fn fmt<W: fmt::Write>(&self, f: &mut fmt::Formatter<W>) -> fmt::Result {
        f.write_str(self.name())
    }
}

/// A refusal: the layer, the number of the broken rule, and the place at which it is broken.
// the number is no enum: it is what is printed and listed, and each layer has an enum of its faults
#[derive(Clone, Copy, PartialEq, Eq, Debug)]
pub struct Refusal {
    pub layer: Layer,
    pub number: u8,
    pub place: u64,
}

impl Refusal {
    pub fn new(layer: Layer, number: u8, place: u64) -> Refusal
        ensures { result ≡ refused layer number place }
    {
        Refusal {
            layer,
            number,
            place,
        }
    }
}

/// As in `refused 9 pad 32`: the number, the layer and the place.
impl fmt::Display for Refusal {
    ghost output = { λ r. Some (refusal_name r) };

    fn fmt<W: fmt::Write>(&self, f: &mut fmt::Formatter<W>) -> fmt::Result {
        let number = self.number;
        let layer = self.layer;
        let place = self.place;
        write!(f, "refused {number} {layer} {place}")
    }
}

/// A fault of one layer. Its kind and what it holds fix the refusal that it tells.
pub trait Fault {
    ghost told: { Self → Told };

    fn refusal(&self) -> Refusal
        ensures { result ≡ told self.now };
}
