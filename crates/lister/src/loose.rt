// How many of the spans below the root are longer than needed. A pass of its own: the header says it before the first
// line.
ghost use Rattle.std.specs.Prelude.{◌≡◌, ◌≤◌, eqb, length, if◌then◌else◌};
ghost use Rattle.format.specs.Verdict.{passed};
ghost use Rattle.format.specs.Check.{check as checked};
ghost use Rattle.format.specs.Buffer.{raw_shape, size_reader};
ghost use Rattle.lister.specs.BySizes.{size_loose};

use decode::judge::tree_at;
use tree::loose::loose_spans;
use tree::raw::place;

// The root is always heavy and never counted.
fn below_root(n: u32, spans: usize) -> usize
    ensures { result ≡ (if eqb n 0 then 0 else spans) }
{
    if n == 0 { 0 } else { spans }
}

// In a buffer that the check has passed.
pub(crate) fn loose_below(b: &[u8], trees: u32, parts: usize, symbols: usize) -> usize
    requires few_bytes { length b.now ≤ 65536 }
    requires passes { checked raw_shape (size_reader b.now trees parts symbols) ≡ passed }
    ensures { result ≡ size_loose b.now trees parts symbols }
{
    let mut count: usize = 0;
    let mut at: usize = 0;
    for n in 0..trees {
        let Ok(here) = tree_at(b, parts, symbols, n, at) else {
            // Not in a buffer that the check has passed.
            return count;
        };
        count += below_root(n, place(loose_spans(here.loose)));
        at = here.next;
    }
    count
}
