// What reading a tree says of the forms of its spans, beside the tree and never in it.
#![tactic(auto, unfolding(crate::specs::Loose::loose_of))]

ghost use Rattle.std.specs.Prelude.{◌≡◌};
ghost use Rattle.format.specs.Loose.{bit, loose_leaf, loose_shared, loose_both};
ghost use Rattle.tree.specs.Loose.{loose_of};

use crate::types::TokenTree;

// Which of a tree's spans are longer than needed. One number: a report that is not asked for costs nothing.
#[derive(Clone, Copy)]
pub enum Loose {
    None,
    // The only span, or the open one.
    Opening,
    // The close span, which has bytes of its own.
    Closing,
    // The open span, and with it the close one, which has no bytes of its own.
    Shared,
    // Both, each with bytes of its own.
    Both,
}

// A tree that was read, and its report.
#[derive(Clone, Copy)]
pub struct ReportedTree {
    pub tree: TokenTree,
    pub loose: Loose,
}

// ---- a report by the spans' own

// A leaf has no close span.
pub fn leaf_loose(first: bool) -> Loose
    ensures { loose_of result ≡ loose_leaf first }
{
    if first { Loose::Opening } else { Loose::None }
}

// A subtree whose close span has no bytes of its own.
pub fn shared_loose(first: bool) -> Loose
    ensures { loose_of result ≡ loose_shared first }
{
    if first { Loose::Shared } else { Loose::None }
}

// A subtree that stores both spans.
pub fn both_loose(first: bool, close: bool) -> Loose
    ensures { loose_of result ≡ loose_both first close }
{
    match (first, close) {
        (true, true) => Loose::Both,
        (true, false) => Loose::Opening,
        (false, true) => Loose::Closing,
        (false, false) => Loose::None,
    }
}

// ---- what it says

// Of the only span, or the open one.
pub fn opening_loose(loose: Loose) -> bool
    ensures { result ≡ (loose_of loose).opening }
{
    matches!(loose, Loose::Opening | Loose::Shared | Loose::Both)
}

pub fn closing_loose(loose: Loose) -> bool
    ensures { result ≡ (loose_of loose).closing }
{
    matches!(loose, Loose::Closing | Loose::Shared | Loose::Both)
}

// How many of the spans that the tree stores.
pub fn loose_spans(loose: Loose) -> u32
    ensures { result ≡ (loose_of loose).spans }
{
    match loose {
        Loose::None => 0,
        Loose::Opening | Loose::Closing | Loose::Shared => 1,
        Loose::Both => 2,
    }
}

// 1 for a loose span, else 0.
pub fn bit(loose: bool) -> u32
    ensures { result ≡ bit loose }
{
    loose as u32
}
