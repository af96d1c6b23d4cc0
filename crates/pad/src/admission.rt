//! Which entries a line takes.
ghost use Rattle.std.specs.Prelude.{◌≡◌, None, Some, IfOk, MatchResult};
ghost use Rattle.number.specs.Fraction.{higher};
ghost use Rattle.range.specs.Bounds.{bound_value};
ghost use Rattle.pad.specs.Faults.{pad_refusal};
ghost use Rattle.pad.specs.Admission.{valued, enter_refusal};

use crate::cell_index::CellIndex;
use crate::faults::PadFault;
use number::Fraction;
use range::Entry;

// Whether the bound is absent or has a value.
fn is_valued(bound: Option<Fraction>) -> bool
    ensures { result ≡ valued bound }
{
    bound.is_none_or(|f| f.has_value())
}

// Whether both bounds are there and the lower is above the upper.
// The bounds are two parameters, as the variant has them.
fn is_crossed(lower: Option<Fraction>, upper: Option<Fraction>) -> bool
    ensures { result ≡ higher (bound_value lower) (bound_value upper) }
{
    matches!((lower, upper), (Some(l), Some(u)) if l.is_above(u))
}

/// The line that the entry may be entered into, or the first rule that it breaks.
pub(crate) fn admitted(line: u8, entry: Entry) -> Result<CellIndex, PadFault>
    ensures rule { MatchResult result (λ _. enter_refusal line entry ≡ None) (λ f. enter_refusal line entry ≡ Some (pad_refusal f)) }
    ensures line { IfOk result (λ i. i.at ≡ line) }
{
    let index = CellIndex::new(line).ok_or(PadFault::NoLine(line))?;
    if let Entry::Bounds(lower, upper) = entry {
        if !is_valued(lower) {
            return Err(PadFault::LowerBound);
        }
        if !is_valued(upper) {
            return Err(PadFault::UpperBound);
        }
        if is_crossed(lower, upper) {
            return Err(PadFault::Crossed(line));
        }
    }
    Ok(index)
}

/// Whether the entry may be entered into the line, or the first rule that it breaks.
pub fn admit(line: u8, entry: Entry) -> Result<(), PadFault>
    ensures { MatchResult result (λ _. enter_refusal line entry ≡ None) (λ f. enter_refusal line entry ≡ Some (pad_refusal f)) }
{
    admitted(line, entry)?;
    Ok(())
}
