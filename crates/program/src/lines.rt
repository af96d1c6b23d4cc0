//! A line for each entry of an input.
ghost use Rattle.std.specs.Prelude.{◌≡◌, IfOk, None, string_bytes, MatchResult};
ghost use Rattle.scale.specs.Ruled.{on_ruled};
ghost use Rattle.range.specs.declared.range.Range.{Range};
ghost use Rattle.range.specs.Hull.{Hull};
ghost use Rattle.range.specs.Entries.{Admitted};
ghost use Rattle.pad.specs.Admission.{enter_refusal};
ghost use Rattle.program.specs.Faults.{refusal_in};
ghost use Rattle.program.specs.Refusals.{entries_refusal};
ghost use Rattle.program.specs.Stopping.{Stopped};
ghost use Rattle.program.specs.Printed.{AllLines};
ghost use Rattle.program.specs.Text.{codes_of, line_text};

use crate::DIVISION;
use crate::faults::ProgramFault;
use crate::input::Entries;
use crate::print::Line;
use crate::stop::Stop;
use pad::admit;
use range::Entry;
use scale::RuledScale;
use std::alloc::Global;

// The line that an entry sets.
fn entered<'a>(
    scale: &'a RuledScale,
    line: u8,
    entry: Entry,
) -> Result<Line<'a, RuledScale>, ProgramFault>
    ensures refusal { refusal_in result ≡ enter_refusal line entry }
    ensures text { IfOk result (λ l. (r : Range) × Hull (on_ruled scale.now) (Admitted entry) r × (line_text (on_ruled l.scale.now) l.line l.shown ≡ line_text (on_ruled scale.now) line (codes_of r))) }
{
    admit(line, entry)?;
    let range = entry.hull(scale);
    let shown = (range.lower <= range.upper).then_some(range);
    Ok(Line { scale, line, shown })
}

/// The text of all entries, or why there is none.
pub(crate) fn all_lines(heap: Global, input: &[u8]) -> Result<String, Stop>
    ensures refusal { MatchResult result (λ _. entries_refusal input.now ≡ None) (Stopped (entries_refusal input.now)) }
    ensures lines { IfOk result (λ t. AllLines input.now (string_bytes t)) }
{
    let mut entries = Entries::new(input)?;
    let scale = RuledScale::new(DIVISION)?;
    let mut text = String::new(heap);
    while let Some((line, entry)) = entries.next_entry()? {
        let line = entered(&scale, line, entry)?;
        write!(text, "{line}")?;
    }
    Ok(text)
}
