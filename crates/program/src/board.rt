//! The board that an input comes to.
ghost use Rattle.std.specs.Prelude.{◌≡◌, IfOk, OnOk, None, string_bytes, MatchResult};
ghost use Rattle.scale.specs.Ruled.{on_ruled};
ghost use Rattle.sheet.specs.Instructions.{instructions};
ghost use Rattle.pad.specs.Boards.{lines_set};
ghost use Rattle.pad.specs.Pads.{board_of, scale_of};
ghost use Rattle.pad.specs.Working.{Works, tightest};
ghost use Rattle.program.specs.Faults.{refusal_in};
ghost use Rattle.program.specs.Input.{count_of, rest_of};
ghost use Rattle.program.specs.Refusals.{entries_refusal, sheet_refusal, input_refusal};
ghost use Rattle.program.specs.Stopping.{Stopped};
ghost use Rattle.program.specs.Entered.{Entered, ComesTo};
ghost use Rattle.program.specs.Printed.{LastBoard};

use crate::DIVISION;
use crate::faults::ProgramFault;
use crate::input::{Entries, cut_sheet};
use crate::print::board_text;
use crate::stop::Stop;
use pad::Pad;
use range::{Range, Verdict};
use scale::RuledScale;
use sheet::FiledSheet;
use std::alloc::Global;

/// The slots for ranges, and those for verdicts.
const RANGES: usize = 256;

const VERDICTS: usize = 64;

// A new pad after every entry, the first one first, and what follows them.
fn enter_all(scale: RuledScale, input: &[u8]) -> Result<(Pad<RuledScale>, &[u8]), ProgramFault>
    ensures refusal { refusal_in result ≡ entries_refusal input.now }
    ensures enters { IfOk result (λ e. Entered (on_ruled scale) input.now (count_of input.now) (board_of e.0)) }
    ensures scale { IfOk result (λ e. scale_of e.0 ≡ scale) }
    ensures rest { IfOk result (λ e. e.1.now ≡ rest_of input.now (count_of input.now)) }
{
    let mut entries = Entries::new(input)?;
    let mut pad = Pad::new(scale);
    while let Some((line, entry)) = entries.next_entry()? {
        pad.enter(line, entry)?;
    }
    Ok((pad, entries.rest))
}

// Files, clears and works a sheet.
fn work_sheet(pad: &mut Pad<RuledScale>, bytes: &[u8]) -> Result<(), ProgramFault>
    ensures refusal { refusal_in result ≡ sheet_refusal bytes.now (lines_set (board_of pad.old)) }
    ensures works { OnOk result (Works (tightest (on_ruled (scale_of pad.old))) (instructions bytes.now) (board_of pad.old) (board_of pad.new)) }
    ensures scale { scale_of pad.new ≡ scale_of pad.old }
{
    let filed = FiledSheet::file(bytes)?;
    let cleared = filed.clear()?;
    let mut ranges = [Range::blank(); RANGES];
    let mut verdicts = [Verdict::Void; VERDICTS];
    pad.work(&cleared, &mut ranges, &mut verdicts)?;
    Ok(())
}

// A new pad after every entry and the sheet.
fn run(scale: RuledScale, input: &[u8]) -> Result<Pad<RuledScale>, ProgramFault>
    ensures refusal { refusal_in result ≡ input_refusal input.now }
    ensures comes { IfOk result (λ p. ComesTo (on_ruled scale) input.now (board_of p)) }
    ensures scale { IfOk result (λ p. scale_of p ≡ scale) }
{
    let (mut pad, rest) = enter_all(scale, input)?;
    work_sheet(&mut pad, cut_sheet(rest))?;
    Ok(pad)
}

/// The text of the board that the input comes to, or why there is none.
pub(crate) fn last_board(heap: Global, input: &[u8]) -> Result<String, Stop>
    ensures refusal { MatchResult result (λ _. input_refusal input.now ≡ None) (Stopped (input_refusal input.now)) }
    ensures board { IfOk result (λ t. LastBoard input.now (string_bytes t)) }
{
    let scale = RuledScale::new(DIVISION)?;
    let pad = run(scale, input)?;
    let text = board_text(heap, &pad)?;
    Ok(text)
}
