//! What the programs do with their inputs, as functions from bytes to the text that is printed.
#![tactic(auto)]

ghost use Rattle.std.specs.Prelude.{◌≡◌, IfOk, string_bytes, MatchResult};
ghost use Rattle.program.specs.Stopping.{StopText};
ghost use Rattle.program.specs.Printed.{Prints, PrintsBoard};

mod board;
mod faults;
mod input;
mod lines;
mod print;
mod stop;

use crate::board::last_board;
use crate::lines::all_lines;
use crate::stop::Stop;
use fault::Fault;
pub use faults::ProgramFault;
use std::alloc::{AllocError, Global};

/// The division of the ruled scale on which the programs work.
const DIVISION: u32 = 100;

// The text, or in its place the refusal that stopped it.
fn or_refusal(heap: Global, text: Result<String, Stop>) -> Result<String, AllocError>
    ensures { IfOk result (λ t. MatchResult text (λ s. string_bytes t ≡ string_bytes s) (λ e. StopText e (string_bytes t))) }
{
    match text {
        Ok(text) => Ok(text),
        Err(Stop::Fault(fault)) => {
            let refusal = fault.refusal();
            format!(in heap; "{refusal}\n")
        }
        Err(Stop::Memory(e)) => Err(e),
    }
}

/// What padrun prints for its input: a line for each entry, or the first refusal alone.
pub fn printed(heap: Global, input: &[u8]) -> Result<String, AllocError>
    ensures { IfOk result (λ t. Prints input.now (string_bytes t)) }
{
    or_refusal(heap, all_lines(heap, input))
}

/// What sheetrun prints for its input: the lines and flags that are set after it, or the first refusal alone.
pub fn printed_board(heap: Global, input: &[u8]) -> Result<String, AllocError>
    ensures { IfOk result (λ t. PrintsBoard input.now (string_bytes t)) }
{
    or_refusal(heap, last_board(heap, input))
}
