//! The text of lines, flags and boards.
ghost use Rattle.std.specs.Prelude.{◌≡◌, ◌≤◌, IfOk, IsSome, Some, string_bytes};
ghost use Rattle.pad.specs.Boards.{line_at, flag_at};
ghost use Rattle.pad.specs.Pads.{board_of, scale_of};
ghost use Rattle.program.specs.Text.{code_text, range_text, line_text, flag_text, LineText, FlagText, BoardText, Joined, Told, text_of};

use pad::Pad;
use range::{Range, Verdict};
use scale::{ArithmeticScale, OrderedScale};
use std::alloc::{AllocError, Global};
use std::fmt;

// A code on its scale.
#[derive(Drop)]
struct Code<'a, S> {
    scale: &'a S,
    code: i64,
}

// The code, or an infinity where its place is infinite.
impl<'a, S: OrderedScale> fmt::Display for Code<'a, S> {
    ghost output = { λ c. Some (code_text (S.place c.scale.now c.code) c.code) };

    fn fmt<W: fmt::Write>(&self, f: &mut fmt::Formatter<W>) -> fmt::Result {
        let code = self.code;
        if code <= self.scale.lowest() {
            f.write_str("-inf")
        } else if self.scale.highest() <= code {
            f.write_str("+inf")
        } else {
            write!(f, "{code}")
        }
    }
}

// What is shown of a line.
#[derive(Drop)]
struct Ends<'a, S> {
    scale: &'a S,
    shown: Option<Range>,
}

// The two ends, or that there are none.
impl<'a, S: OrderedScale> fmt::Display for Ends<'a, S> {
    ghost output = { λ e. Some (range_text (S.place e.scale.now) e.shown) };

    fn fmt<W: fmt::Write>(&self, f: &mut fmt::Formatter<W>) -> fmt::Result {
        let scale = self.scale;
        let Some(range) = self.shown else {
            return f.write_str("blank");
        };
        let lower = Code {
            scale,
            code: range.lower,
        };
        let upper = Code {
            scale,
            code: range.upper,
        };
        write!(f, "{lower} {upper}")
    }
}

/// A line's number and what is shown of it.
#[derive(Drop)]
pub(crate) struct Line<'a, S> {
    pub(crate) scale: &'a S,
    pub(crate) line: u8,
    pub(crate) shown: Option<Range>,
}

impl<'a, S: OrderedScale> fmt::Display for Line<'a, S> {
    ghost output = { λ l. Some (line_text (S.place l.scale.now) l.line l.shown) };

    fn fmt<W: fmt::Write>(&self, f: &mut fmt::Formatter<W>) -> fmt::Result {
        let line = self.line;
        let ends = Ends {
            scale: self.scale,
            shown: self.shown,
        };
        write!(f, "line {line} {ends}\n")
    }
}

/// A flag's number and its verdict.
#[derive(Drop)]
struct Flag {
    flag: u8,
    verdict: Verdict,
}

impl fmt::Display for Flag {
    ghost output = { λ f. Some (flag_text f.flag f.verdict) };

    fn fmt<W: fmt::Write>(&self, f: &mut fmt::Formatter<W>) -> fmt::Result {
        let flag = self.flag;
        let verdict = self.verdict;
        write!(f, "flag {flag} {verdict}\n")
    }
}

// The line, if it is set.
fn set_line<S: ArithmeticScale>(pad: &Pad<S>, line: u8) -> Option<Line<'_, S>>
    ensures { line ≤ 31 → LineText (S.place (scale_of pad.now)) line (line_at (board_of pad.now) line) (text_of (λ l. Some (line_text (S.place l.scale.now) l.line l.shown)) result) }
{
    let shown = pad.show_line(line).ok()?;
    Some(Line {
        scale: pad.scale(),
        line,
        shown,
    })
}

// The flag, if it is set.
fn set_flag<S: ArithmeticScale>(pad: &Pad<S>, flag: u8) -> Option<Flag>
    ensures { flag ≤ 31 → FlagText flag (flag_at (board_of pad.now) flag) (text_of (λ f. Some (flag_text f.flag f.verdict)) result) }
{
    let verdict = pad.show_flag(flag).ok()?;
    Some(Flag { flag, verdict })
}

// The texts of those of a row of 32 that are set, one after the other.
fn joined<T: fmt::Display + Drop, F: Fn(u8) -> Option<T>>(
    heap: Global,
    set: F,
) -> Result<String, AllocError>
    requires callable { F.IsAlwaysCallable set }
    requires told { (x : _) → IsSome (T.output x) }
    ensures { IfOk result (λ t. Joined (Told (F.post set) T.output) 32 (string_bytes t)) }
{
    let mut text = String::new(heap);
    // the number itself is asked for
    for n in 0..32 {
        if let Some(item) = set(n) {
            write!(text, "{item}")?;
        }
    }
    Ok(text)
}

/// The lines and flags that are set, each in ascending order.
pub(crate) fn board_text<S: ArithmeticScale>(
    heap: Global,
    pad: &Pad<S>,
) -> Result<String, AllocError>
    ensures { IfOk result (λ t. BoardText (S.place (scale_of pad.now)) (board_of pad.now) (string_bytes t)) }
{
    let mut text = joined(heap, |n| set_line(pad, n))?;
    let flags = joined(heap, |n| set_flag(pad, n))?;
    text.push_str(flags.as_str())?;
    Ok(text)
}
