//! What was tried, and every difference that was found.
ghost use Rattle.std.specs.Prelude.{Some};
ghost use Rattle.crosscheck.specs.Names.{kind_name, purpose_name};

use crate::separate::answer::{Answer, Shown};
use crate::separate::filing;
use crate::separate::filing::Instruction;
use crate::separate::operation::Operation;
use crate::separate::truths::Truths;
use std::alloc::{AllocError, Global};
use std::collections::BTreeMap;
use std::{fmt, io};

/// The call whose answers are compared.
#[derive(Clone, Copy, Debug)]
pub enum Call {
    Division(u32),
    Enter(u8),
    Work,
    Line(u8),
    Flag(u8),
}

// What a call is for.
#[derive(Clone, Copy, PartialEq, Eq, PartialOrd, Ord)]
enum Purpose {
    Working,
    Entering,
    Showing,
    Dividing,
}

/// What a line holds that is shown.
#[derive(Clone, Copy, PartialEq, Eq, PartialOrd, Ord)]
pub enum Kind {
    Blank,
    Bounded,
    UnboundedBelow,
    UnboundedAbove,
    Unbounded,
}

#[derive(Clone, Copy)]
struct Difference {
    case: u64,
    call: Call,
    ours: Answer,
    separate: Answer,
}

// How often each key was counted.
#[derive(Drop)]
struct Counts<K: Ord> {
    cells: BTreeMap<K, u64>,
}

impl<K: Ord + Drop> Counts<K> {
    fn new(heap: Global) -> Counts<K> {
        Counts {
            cells: BTreeMap::new(heap),
        }
    }

    fn add(&mut self, key: K) -> Result<(), AllocError> {
        let count = self.cells.entry(key)?.or_insert(0);
        *count = count.wrapping_add(1);
        Ok(())
    }

    fn of(&self, key: K) -> u64 {
        self.cells.get(&key).copied().unwrap_or(0)
    }
}

/// Counts over all cases, and the first differences.
#[derive(Drop)]
pub struct Tally {
    cases: u64,
    calls: u64,
    worked: Counts<Operation>,
    // by what the call was for, and the number of the refusal
    refused: Counts<(Purpose, u8)>,
    lines: Counts<Kind>,
    flags: Counts<Truths>,
    differences: u64,
    first: Vec<Difference>,
}

// At most so many differences are printed.
const MOST: usize = 20;

impl Call {
    fn purpose(self) -> Purpose {
        match self {
            Call::Division(_) => Purpose::Dividing,
            Call::Enter(_) => Purpose::Entering,
            Call::Work => Purpose::Working,
            Call::Line(_) | Call::Flag(_) => Purpose::Showing,
        }
    }
}

impl fmt::Display for Purpose {
    ghost output = { λ p. Some (purpose_name p) };

    fn fmt<W: fmt::Write>(&self, f: &mut fmt::Formatter<W>) -> fmt::Result {
        f.write_str(match self {
            Purpose::Working => "working",
            Purpose::Entering => "entering",
            Purpose::Showing => "showing",
            Purpose::Dividing => "a scale",
        })
    }
}

impl Kind {
    const ALL: [Kind; 5] = [
        Kind::Blank,
        Kind::Bounded,
        Kind::UnboundedBelow,
        Kind::UnboundedAbove,
        Kind::Unbounded,
    ];

    /// That of a range, by the sides on which it has no bound.
    pub fn of(below: bool, above: bool) -> Kind {
        match (below, above) {
            (false, false) => Kind::Bounded,
            (true, false) => Kind::UnboundedBelow,
            (false, true) => Kind::UnboundedAbove,
            (true, true) => Kind::Unbounded,
        }
    }
}

impl fmt::Display for Kind {
    ghost output = { λ k. Some (kind_name k) };

    fn fmt<W: fmt::Write>(&self, f: &mut fmt::Formatter<W>) -> fmt::Result {
        f.write_str(match self {
            Kind::Blank => "blank",
            Kind::Bounded => "bounded",
            Kind::UnboundedBelow => "unbounded below",
            Kind::UnboundedAbove => "unbounded above",
            Kind::Unbounded => "unbounded",
        })
    }
}

impl Tally {
    pub fn new(heap: Global) -> Tally {
        Tally {
            cases: 0,
            calls: 0,
            worked: Counts::new(heap),
            refused: Counts::new(heap),
            lines: Counts::new(heap),
            flags: Counts::new(heap),
            differences: 0,
            first: Vec::new(heap),
        }
    }

    /// The next case begins.
    pub fn begin(&mut self) {
        self.cases = self.cases.wrapping_add(1);
    }

    // Counts the answer.
    fn count(&mut self, call: Call, answer: Answer) -> Result<(), AllocError> {
        match answer {
            Err(refused) => self.refused.add((call.purpose(), refused.number)),
            Ok(Shown::Blank) => self.lines.add(Kind::Blank),
            Ok(Shown::Truths(truths)) => self.flags.add(truths),
            Ok(Shown::Nothing | Shown::Ends(_, _) | Shown::Untidy) => Ok(()),
        }
    }

    /// Compares the two answers to a call.
    pub fn compare(
        &mut self,
        call: Call,
        ours: Answer,
        separate: Answer,
    ) -> Result<(), AllocError> {
        self.calls = self.calls.wrapping_add(1);
        if ours == separate {
            return self.count(call, ours);
        }
        self.differences = self.differences.wrapping_add(1);
        if self.first.len() < MOST {
            let case = self.cases;
            self.first.push(Difference {
                case,
                call,
                ours,
                separate,
            })?;
        }
        Ok(())
    }

    /// Counts a range that is shown.
    pub fn count_line(&mut self, kind: Kind) -> Result<(), AllocError> {
        self.lines.add(kind)
    }

    /// Counts the operations of a sheet that was worked.
    pub fn count_sheet(&mut self, bytes: &[u8]) -> Result<(), AllocError> {
        let Ok(filed) = filing::file(bytes) else {
            return Ok(());
        };
        for bytes in filed.instructions {
            if let Some(operation) = Instruction::from(*bytes).operation {
                self.worked.add(operation)?;
            }
        }
        Ok(())
    }

    // The differences, at most the first of them.
    fn print_differences(&self, rt: &impl Print) -> io::Result<()> {
        for difference in self.first.iter() {
            let Difference {
                case,
                call,
                ours,
                separate,
            } = difference;
            println!(rt; "case {case} {call:?}: ours {ours:?}, separate {separate:?}")?;
        }
        let differences = self.differences;
        println!(rt; "differences {differences}")
    }

    fn print_operations(&self, rt: &impl Print) -> io::Result<()> {
        for operation in Operation::ALL {
            let byte = operation as u8;
            let count = self.worked.of(operation);
            println!(rt; "worked {byte:02x} {operation}: {count}")?;
        }
        Ok(())
    }

    fn print_refusals(&self, rt: &impl Print) -> io::Result<()> {
        for ((purpose, number), count) in self.refused.cells.iter() {
            println!(rt; "refused {number} {purpose}: {count}")?;
        }
        Ok(())
    }

    fn print_shown(&self, rt: &impl Print) -> io::Result<()> {
        for kind in Kind::ALL {
            let count = self.lines.of(kind);
            println!(rt; "shown {kind}: {count}")?;
        }
        for truths in Truths::ALL {
            let count = self.flags.of(truths);
            println!(rt; "shown {truths}: {count}")?;
        }
        Ok(())
    }

    /// Prints all.
    pub fn print(&self, rt: &impl Print) -> io::Result<()> {
        let cases = self.cases;
        let calls = self.calls;
        println!(rt; "cases {cases}, calls {calls}")?;
        self.print_operations(rt)?;
        self.print_refusals(rt)?;
        self.print_shown(rt)?;
        self.print_differences(rt)
    }
}
