//! Tries many examples of every operation and every refusal of the pad, on both scales, against separate code, and prints what was tried and every difference.
#![tactic(auto)]

mod damage;
mod dice;
mod draft;
mod entries;
mod ours;
mod pair;
mod script;
mod separate;
mod tally;

use script::{Case, Script};
use std::io;

fn main(rt: HostRuntime) -> io::Result<()> {
    let mut script = Script::new(rt.alloc());
    for _ in 0..2000 {
        script.try_division()?;
    }
    let cases = [
        (Case::Single, 12000),
        (Case::Mixed, 6000),
        (Case::Damaged, 8000),
        (Case::Refused, 4000),
    ];
    for (case, count) in cases {
        for _ in 0..count {
            script.try_one(case)?;
        }
    }
    script.print(&rt)
}
