// The lister: a bundle on standard input, its trees on standard output, a line each; or the one line of its refusal.
#![tactic(auto)]

ghost use Rattle.std.specs.Prelude.{◌≡◌, ◌≤◌, length, take, IfOk};
ghost use Rattle.format.specs.Lister.{lister_text};
ghost use Rattle.lister.specs.Counts.{IsPrefixLen};

use crate::list::list_bundle;
use std::io;
use std::io::{Read, Write};

mod depth;
mod lines;
mod list;
mod loose;

// One byte more than is taken, so that more is seen.
const INPUT: usize = 65537;

// No text is longer: five bytes for each byte taken, and the header.
const TEXT: usize = 327755;

// The whole text of an input, at the front of a run that it always fits.
fn list_all(b: &[u8], text: &mut [u8]) -> usize
    requires { 327755 ≤ length text.old }
    ensures text_after { take result text.new ≡ lister_text b.now }
    ensures prefix_len { IsPrefixLen result text.new }
{
    list_bundle(text, b)
}

// Reads until the run is full or the input ends, and says how many bytes there are.
fn read_full<R: Read>(from: &mut R, run: &mut [u8]) -> io::Result<usize>
    ensures { IfOk result (λ n. n ≤ length run.new) }
{
    let mut n = 0;
    while n < run.len() {
        let more = from.read(&mut run[n..])?;
        if more == 0 {
            return Ok(n);
        }
        n += more;
    }
    Ok(n)
}

fn main(rt: HostRuntime) -> io::Result<()> {
    let mut input = [0u8; INPUT];
    let mut text = [0u8; TEXT];
    let n = read_full(&mut rt.reader(), &mut input)?;
    let m = list_all(&input[..n], &mut text);
    io::writer(&rt).write_all(&text[..m])
}
