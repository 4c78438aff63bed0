// The bench: reads a sheet on standard input and prints its whole answer, or its refusal and nothing else.
#![tactic(auto)]

use report::answer;
use std::io;
use std::io::{Read, Write};

// One byte more than the longest sheet, so that a longer one is seen to be too long.
const ROOM: usize = 16385;

// Fills the room from standard input, and says how much of it is filled. Each read asks for all the room that is left, where
// `read_to_end` begins with little: an input that keeps its messages apart loses what a read has no room for.
fn fill(rt: &HostRuntime, room: &mut [u8]) -> io::Result<usize> {
    let mut input = rt.stdin();
    let mut filled: usize = 0;
    for _ in 0..ROOM {
        if filled >= room.len() {
            break;
        }
        let got = input.read(&mut room[filled..])?;
        if got == 0 {
            break;
        }
        filled += got;
    }
    Ok(filled)
}

fn main(rt: HostRuntime) -> io::Result<()> {
    let mut room = [0; 16385];
    let filled = fill(&rt, &mut room)?.min(ROOM);
    let bytes = answer(rt.alloc(), &room[..filled])?;
    let mut out = io::writer(&rt);
    out.write_all(&bytes)?;
    out.flush()
}
