//! Clearing: the constants, then the instructions in one pass.
ghost use Rattle.std.specs.Prelude.{◌≡◌, Some, None, length, MatchResult};
ghost use Rattle.sheet.specs.Faults.{clearing_refusal};
ghost use Rattle.sheet.specs.Operations.{operation_of};
ghost use Rattle.sheet.specs.Clearing.{broken_by, constants_refusal, instructions_refusal, clearing};
ghost use Rattle.sheet.specs.Tallies.{Tallied};
ghost use Rattle.sheet.specs.Held.{filed_bytes};

use crate::faults::ClearingFault;
use crate::operation::Operation;
use crate::sheet::FiledSheet;
use crate::tally::Tally;
use number::Fraction;

impl FiledSheet<'_> {
    // Whether every constant has a value.
    #[tactic(auto, using(crate::proofs::Firsts::below_none, crate::proofs::Constants::valued_next, crate::proofs::Constants::valueless, crate::proofs::Constants::all_valued))]
    fn check_constants(&self) -> Result<(), ClearingFault>
        ensures { MatchResult result (λ _. constants_refusal (filed_bytes self.now) ≡ None) (λ f. constants_refusal (filed_bytes self.now) ≡ Some (clearing_refusal f)) }
    {
        for (c, constant) in self.constants.iter().enumerate() {
            if !Fraction::from_le_bytes(*constant).has_value() {
                return Err(ClearingFault::Valueless(c));
            }
        }
        Ok(())
    }

    // The operation of the instruction at the place, or the first rule that it breaks after those before it.
    fn check_instruction(
        &self,
        place: usize,
        byte: u8,
        argument: u8,
        tally: &Tally,
    ) -> Result<Operation, ClearingFault>
        ensures { MatchResult result (λ o. (operation_of byte ≡ Some o) × (broken_by (length self.now.constants.now) place (Some o) argument tally.now.ranges.«now» tally.now.verdicts.«now» ≡ None)) (λ f. broken_by (length self.now.constants.now) place (operation_of byte) argument tally.now.ranges.«now» tally.now.verdicts.«now» ≡ Some (clearing_refusal f)) }
    {
        let Ok(operation) = Operation::try_from(byte) else {
            return Err(ClearingFault::UnknownOperation(place));
        };
        let shape = operation.shape();
        if !shape.argument.allows(self.constants.len(), argument) {
            return Err(ClearingFault::Argument(place));
        }
        if tally.ranges.now < shape.ranges.takes || tally.verdicts.now < shape.verdicts.takes {
            return Err(ClearingFault::TooFewOperands(place));
        }
        Ok(operation)
    }

    // The instructions in one pass: the tally, or the first rule that one of them breaks.
    fn check_instructions(&self) -> Result<Tally, ClearingFault>
        ensures { MatchResult result (λ t. (instructions_refusal (filed_bytes self.now) ≡ None) × Tallied (filed_bytes self.now) t) (λ f. instructions_refusal (filed_bytes self.now) ≡ Some (clearing_refusal f)) }
    {
        let mut tally = Tally::new();
        for (place, instruction) in self.instructions.iter().enumerate() {
            let [byte, argument] = *instruction;
            let operation = self.check_instruction(place, byte, argument, &tally)?;
            tally.add(operation, argument);
        }
        if tally.ranges.now > 0 || tally.verdicts.now > 0 {
            return Err(ClearingFault::NotEmpty(self.instructions.len()));
        }
        Ok(tally)
    }

    /// What clearing finds out of a sheet, or the first rule that it breaks.
    #[tactic(auto, unfolding(crate::specs::Clearing::clearing))]
    pub(crate) fn look_through(&self) -> Result<Tally, ClearingFault>
        ensures { MatchResult result (λ t. (clearing (filed_bytes self.now) ≡ None) × Tallied (filed_bytes self.now) t) (λ f. clearing (filed_bytes self.now) ≡ Some (clearing_refusal f)) }
    {
        self.check_constants()?;
        self.check_instructions()
    }
}
