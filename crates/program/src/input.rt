//! Reading the input.
ghost use Rattle.std.specs.Prelude.{◌≡◌, ◌≤◌, cond, drop, take, is_some, Some, None, IfSome, IfOk, nat_le, slice_index};
ghost use Rattle.number.specs.Bytes.{fraction_at};
ghost use Rattle.program.specs.Faults.{refusal_in};
ghost use Rattle.program.specs.Input.{count_of, entry_by, rest_of, is_entry};
ghost use Rattle.program.specs.Refusals.{count_refusal};
ghost use Rattle.program.specs.Reading.{NextEntry};

use crate::faults::ProgramFault;
use number::Fraction;
use range::Entry;

// The greatest count of entries.
const MOST: u8 = 32;

// The bytes of a sheet that are read: one more than a sheet may have.
const LONGEST: usize = 32769;

/// The entries of an input in turn: `rest` begins with the one of the index `next`, from 0.
// the code doesn't read `input`: the facts below, and the contracts, are told of it
#[derive(Drop)]
pub(crate) struct Entries<'a> {
    pub(crate) input: &'a [u8],
    pub(crate) rest: &'a [u8],
    pub(crate) next: u8,
    count: u8,
    ghost counted: { count ≡ count_of input.now },
    ghost within: { next ≤ count },
    ghost at: { rest.now ≡ rest_of input.now next },
}

impl<'a> Entries<'a> {
    /// At the first entry, unless the count is missing or too great.
    pub(crate) fn new(input: &'a [u8]) -> Result<Entries<'a>, ProgramFault>
        ensures refusal { refusal_in result ≡ count_refusal input.now }
        ensures input { IfOk result (λ e. e.input.now ≡ input.now) }
        ensures first { IfOk result (λ e. e.next ≡ 0) }
    {
        match input.split_first() {
            Some((count, rest)) if *count <= MOST => Ok(Entries {
                input,
                rest,
                next: 0,
                count: *count,
            }),
            _ => Err(ProgramFault::Input(0)),
        }
    }

    /// The line and the entry that come next, or none past the last.
    pub(crate) fn next_entry(&mut self) -> Result<Option<(u8, Entry)>, ProgramFault>
        ensures input { self.new.input.now ≡ self.old.input.now }
        ensures entry { NextEntry self.old.input.now self.old.next self.new.next result }
    {
        if self.next == self.count {
            return Ok(None);
        }
        let fault = ProgramFault::Input(u64::from(self.next));
        let (line, entry, rest) = split_entry(self.rest).ok_or(fault)?;
        self.rest = rest;
        self.next += 1;
        Ok(Some((line, entry)))
    }
}

// An entry by its kind; bounds that the kind lacks are ignored.
fn entry_by(kind: u8, lower: Fraction, upper: Fraction) -> Option<Entry>
    ensures { result ≡ cond (nat_le kind 4) (Some (entry_by kind lower upper)) None }
{
    match kind {
        0 => Some(Entry::Bounds(Some(lower), Some(upper))),
        1 => Some(Entry::Bounds(None, Some(upper))),
        2 => Some(Entry::Bounds(Some(lower), None)),
        3 => Some(Entry::Bounds(None, None)),
        4 => Some(Entry::Blank),
        _ => None,
    }
}

// The line and the entry with which the bytes begin, and what follows.
fn split_entry(bytes: &[u8]) -> Option<(u8, Entry, &[u8])>
    ensures whole { is_some result ≡ is_entry bytes.now }
    ensures line { IfSome result (λ e. e.0 ≡ slice_index bytes.now 0) }
    ensures entry { IfSome result (λ e. e.1 ≡ entry_by (slice_index bytes.now 1) (fraction_at bytes.now 2) (fraction_at bytes.now 10)) }
    ensures rest { IfSome result (λ e. e.2.now ≡ drop 18 bytes.now) }
{
    let ([line, kind], rest) = bytes.split_first_chunk::<2>()?;
    let (lower, rest) = rest.split_first_chunk::<8>()?;
    let (upper, rest) = rest.split_first_chunk::<8>()?;
    let lower = Fraction::from_le_bytes(*lower);
    let upper = Fraction::from_le_bytes(*upper);
    let entry = entry_by(*kind, lower, upper)?;
    Some((*line, entry, rest))
}

/// The bytes of the sheet: those past its greatest length and one more are not read.
pub(crate) fn cut_sheet(rest: &[u8]) -> &[u8]
    ensures { result.now ≡ take 32769 rest.now }
{
    rest.get(..LONGEST).unwrap_or(rest)
}
