// Reads a list as little-endian words from standard input, and prints the verdict on it: `ok N`, `refused R at P`, or
// `input` for what is no list.
#![tactic(auto)]

ghost use Rattle.std.specs.Prelude.{IfOk, ◌≤◌, length};

use std::io;
use std::io::{Read, Write};

// Reads until the input ends or the space is full, and answers how many bytes came. A pipe hands its bytes over in pieces, so a short
// read is no end.
fn read_all(rt: &HostRuntime, bytes: &mut [u8]) -> io::Result<usize>
    ensures { IfOk result (λ n. n ≤ length bytes.old) }
{
    let mut input = rt.stdin();
    let mut n: usize = 0;
    while n < bytes.len() {
        let more = input.read(&mut bytes[n..])?;
        if more == 0 {
            return Ok(n);
        }
        n += more;
    }
    Ok(n)
}

// The space is a byte longer than the longest list, so that longer input shows.
fn main(rt: HostRuntime) -> io::Result<()> {
    let mut bytes = [0u8; 65537];
    let Ok(n) = read_all(&rt, &mut bytes) else {
        return io::writer(&rt).write_all(b"input\n");
    };
    let mut line = [0u8; 64];
    let k = lines::line_of(&bytes[..n], &mut line);
    io::writer(&rt).write_all(&line[..k])
}
