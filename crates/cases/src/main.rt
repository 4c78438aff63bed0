// Answers the sheets of the corpus one after another, as the bench does. The stored output was written by the other
// implementation, in oracle/. A case is its length in decimal, a newline, and so many bytes.
#![tactic(auto)]

#[cfg(test)]
mod tests;

use report::answer;
use std::io::{BufWriter, Write};
use std::{fs, io};

// No more cases than this are read. The cases are counted since each is told with its number, and so the loop ends.
const MOST: u32 = 1000000;

// The length that a line writes in digits: no digit at all is the length 0, and none may follow a number past 100000. `parse` would
// take a plus, want a digit, and know no such bound.
fn length(line: &[u8]) -> Option<usize> {
    line.iter().try_fold(0, |length: usize, byte| {
        let more = byte.is_ascii_digit() && length <= 100000;
        more.then(|| length * 10 + usize::from(*byte - b'0'))
    })
}

// The first sheet of the data, and what follows it.
fn next_case(data: &[u8]) -> Option<(&[u8], &[u8])> {
    let newline = data.iter().position(|byte| *byte == b'\n')?;
    data[newline + 1..].split_at_checked(length(&data[..newline])?)
}

fn main(rt: HostRuntime) -> io::Result<()> {
    let data = fs::read(&rt, "cases.bin")?;
    let mut out = BufWriter::new(rt.alloc(), io::writer(&rt))?;
    let mut rest = data.as_slice();
    for number in 1..MOST {
        let Some((sheet, after)) = next_case(rest) else {
            break;
        };
        let bytes = answer(rt.alloc(), sheet)?;
        writeln!(out, "case {number}")?;
        out.write_all(&bytes)?;
        rest = after;
    }
    out.flush()
}
