// The report on the tree at a place, of its bytes alone. It stands beside the reading of the tree: a reader that does
// not hand it back does not pay for it.
#![tactic(auto, using(pack::proofs::Use::read_cases, pack::proofs::Use::span_loose), unfolding(format::specs::Loose::loose_at, format::specs::Loose::loose_by, format::specs::Loose::loose_after))]

ghost use Rattle.std.specs.Prelude.{◌≡◌, ◌≤◌, length};
ghost use Rattle.format.specs.Word.{byte_at};
ghost use Rattle.format.specs.Span.{span_at};
ghost use Rattle.format.specs.Loose.{loose_read, loose_by, loose_at};
ghost use Rattle.tree.specs.Loose.{loose_of};
ghost use Rattle.decode.specs.Reported.{with_report};

use pack::span::{is_loose, span_at};
use pack::unchecked::byte_at;
use tree::loose::{Loose, both_loose, leaf_loose, shared_loose};
use tree::raw::{At, ChildrenBytes};

// A tree that was read, with the report on its spans.
#[derive(Clone, Copy)]
pub struct Reported<T> {
    pub tree: T,
    pub next: usize,
    pub children: ChildrenBytes,
    pub loose: Loose,
}

pub(crate) fn with_report<T: Copy>(here: At<T>, loose: Loose) -> Reported<T>
    ensures { result ≡ with_report here loose }
{
    Reported {
        tree: here.tree,
        next: here.next,
        children: here.children,
        loose,
    }
}

// What stands at a place; behind the end a 0.
fn control_or_0(b: &[u8], at: usize) -> u32
    ensures { result ≡ byte_at b.now at }
{
    if b.len() <= at {
        return 0;
    }
    byte_at(b, at)
}

// Whether the span at a place is loose.
fn span_loose(b: &[u8], at: usize) -> bool
    ensures { result ≡ loose_read at (span_at b.now at) }
{
    let Some(here) = span_at(b, at) else {
        return false;
    };
    is_loose(here.span, here.next - at)
}

// By the control byte, which stands at `at`: 101 stores a close span; 000, 001 and 010 have none of their own.
fn loose_by(b: &[u8], at: usize, control: u32, first: bool) -> Loose
    requires { at ≤ length b.now }
    ensures { loose_of result ≡ loose_by b.now first at control }
{
    if control % 8 == 5 {
        return both_loose(first, span_loose(b, at + 1));
    }
    if control % 8 < 3 {
        return shared_loose(first);
    }
    leaf_loose(first)
}

pub fn loose_at(b: &[u8], at: usize) -> Loose
    ensures { loose_of result ≡ loose_at b.now at }
{
    let Some(head) = span_at(b, at) else {
        return leaf_loose(false);
    };
    let first = is_loose(head.span, head.next - at);
    if head.extra % 2 == 1 {
        return leaf_loose(first);
    }
    if head.extra / 2 == 1 {
        return leaf_loose(first);
    }
    loose_by(b, head.next, control_or_0(b, head.next), first)
}
