// The listing program (01): reads the byte c and two books from standard input, and writes their listing to standard output.
#![tactic(auto)]

ghost use Rattle.std.specs.Prelude.{IfOk, ◌≤◌, length};

use std::io::{self, Lock, Read, Write};

// Reads until the room is full or the input ends, and answers how many bytes that were. What is read may come in pieces.
fn read_full<T: Read>(input: &mut T, room: &mut [u8]) -> io::Result<usize>
    ensures { IfOk result (λ n. n ≤ length room.new) }
{
    let mut done = 0;
    // Stays: it goes on by what was read, and counts no index.
    while done < room.len() {
        let n = input.read(&mut room[done..])?;
        if n == 0 {
            break;
        }
        done += n;
    }
    Ok(done)
}

// Input of 8,193 bytes is too large already, so no more is read.
fn main(rt: HostRuntime) -> io::Result<()> {
    let mut input = [0u8; 8193];
    let n = read_full(&mut rt.stdin().lock(), &mut input)?;
    let listing = listing_text::listing(&input[..n]);
    let bytes = listing.bytes;
    let length = listing.length;
    rt.stdout().lock().write_all(&bytes[..length])
}
