//! Reads the input and prints what the library says of it.
#![tactic(auto)]

use program::printed_board;
use std::io;
use std::io::Read;

// A count byte, 32 entries of 18 bytes, and one byte more than a sheet may have: nothing beyond them is read.
const MOST: u64 = 33346;

// as in padrun: a function for both would be public, and its contract could say nothing of what is read or printed
fn main(rt: HostRuntime) -> io::Result<()> {
    let heap = rt.alloc();
    let mut input = Vec::new(heap);
    let _ = rt.stdin().take(MOST).read_to_end(&mut input)?;
    let text = printed_board(heap, input.as_slice())?;
    rt.print(text)
}
