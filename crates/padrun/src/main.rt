//! Reads the input and prints what the library says of it.
#![tactic(auto)]

use program::printed;
use std::io;
use std::io::Read;

// A count byte and 32 entries of 18 bytes: nothing beyond them is read.
const MOST: u64 = 577;

// as in sheetrun: a function for both would be public, and its contract could say nothing of what is read or printed
fn main(rt: HostRuntime) -> io::Result<()> {
    let heap = rt.alloc();
    let mut input = Vec::new(heap);
    let _ = rt.stdin().take(MOST).read_to_end(&mut input)?;
    let text = printed(heap, input.as_slice())?;
    rt.print(text)
}
