// The listing program: one file from standard input, its listing to standard output (document 01, the end of
// "Worked values"). It reads one byte more than 65,536, so that row 19 is seen. The work is in `listing::program`. A read or a
// write that fails ends it with that error.
// The rules in words: docs/FORMAT.md, "Worked values".
#![tactic(auto)]

ghost use Rattle.std.specs.Prelude.{◌≡◌, length};
ghost use Rattle.std.specs.Io.{ReadsAtMost};

use std::io;
use std::io::{Read, Write};

// Room for the input. The `ensures` gives only the length, which lending the array as a slice needs.
fn input_row() -> [u8; 65537]
    ensures { 65537 ≡ length result }
{
    [0; 65537]
}

// Room for its listing: 16 bytes for each of the input's, and 64 more.
fn listing_row() -> [u8; 1048656] {
    [0; 1048656]
}

// Fills the row from its start until it is full or the input ends, and says how many bytes came.
fn read_full<R: Read>(from: &mut R, row: &mut [u8]) -> io::Result<usize>
    ensures { ReadsAtMost result row.new }
{
    let mut done = 0;
    while done < row.len() {
        let n = from.read(&mut row[done..])?;
        if n == 0 {
            break;
        }
        done += n;
    }
    Ok(done)
}

// What was read, listed.
fn print<W: Write>(to: &mut W, input: &[u8], out: &mut [u8]) -> io::Result<()> {
    if let Some(n) = listing::program(input, out) {
        to.write_all(&out[..n])?;
    }
    Ok(())
}

// The same into an array, whose length its type tells.
fn print_in<W: Write>(to: &mut W, input: &[u8], row: &mut [u8; 1048656]) -> io::Result<()> {
    print(to, input, row)
}

fn main(rt: HostRuntime) -> io::Result<()> {
    let mut input = input_row();
    let n = read_full(&mut rt.stdin(), &mut input)?;
    let mut out = listing_row();
    print_in(&mut rt.stdout(), &input[..n], &mut out)
}
