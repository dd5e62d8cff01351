// What each call answers, and how it changes the cursor. The arrays are read here and not written.
ghost use Rattle.std.specs.Prelude.{◌≡◌, ◌+◌, ◌<◌, ◌≤◌};
ghost use Rattle.format.specs.Cursor.{bump, end, bump_or_end};
ghost use Rattle.tree.specs.Loose.{loose_of};
ghost use Rattle.tree.specs.Tables.{mode_in};
ghost use Rattle.cursor.specs.Plan.{refusal, doing, Enters, GoesOn, Shuts, ShutsLast, Planned};

use crate::open::{agrees, closes_last};
use crate::state::{At, MOST_OPEN};
use decode::decode::TreeAt;
use decode::judge::tree_in;
use decode::loose::loose_at;
use pack::row::{self, Row};
use tree::loose::{Loose, ReportedTree};
use tree::raw::{Descendants, RawAt, RawTree};
use tree::refusal::Refusal;
use tree::types::TokenTree;
use walk::buffer::Buffer;
use walk::read::read_tree;

// What a call hands back.
#[derive(Clone, Copy)]
pub enum Reply {
    // Nothing to hand back.
    Done,
    None,
    Tree(ReportedTree),
}

// A subtree that is opened, and the place of its first child.
#[derive(Clone, Copy)]
pub struct Opening {
    pub count: Descendants,
    pub next: usize,
}

#[derive(Clone, Copy)]
pub enum Change {
    Stay,
    // To the next tree, at this place.
    On(usize),
    // Into a subtree.
    Open(Opening),
    // The last open subtree is shut.
    Shut,
}

#[derive(Clone, Copy)]
pub struct Plan {
    pub answer: Result<Reply, Refusal>,
    pub change: Change,
}

fn refuse(number: Row, tree: u32) -> Plan
    ensures { result ≡ refusal number tree }
{
    Plan {
        answer: Err(Refusal { number, tree }),
        change: Change::Stay,
    }
}

fn done(change: Change) -> Plan
    ensures { result ≡ doing change }
{
    Plan {
        answer: Ok(Reply::Done),
        change,
    }
}

// Over a leaf, or into a subtree: 4 for a 257th that is open.
#[tactic(auto, using(crate::proofs::PlanReturns::enter_cases))]
fn enter(at: At, here: RawAt) -> Plan
    requires { at.number + 1 < 4294967296 }
    ensures { Enters at here result }
{
    match here.tree {
        RawTree::Punct(_) => done(Change::On(here.next)),
        RawTree::Ident(_) => done(Change::On(here.next)),
        RawTree::Literal(_) => done(Change::On(here.next)),
        RawTree::Subtree(subtree) => {
            if MOST_OPEN <= at.depth {
                return refuse(row::DEPTH, at.number);
            }
            done(Change::Open(Opening {
                count: subtree.len,
                next: here.next,
            }))
        }
    }
}

// To the next tree, whose entries are not looked up. At the end nothing changes.
#[tactic(auto, using(crate::proofs::PlanReturns::go_cases))]
fn go_on(buffer: &Buffer, at: At) -> Plan
    ensures { GoesOn buffer.now.bytes.now buffer.now.trees (mode_in buffer.now.tables) at result }
{
    if buffer.trees <= at.number {
        return done(Change::Stay);
    }
    match tree_in(buffer.bytes, buffer.tables.limits, at.number, at.place) {
        Ok(here) => enter(at, here),
        Err(number) => refuse(number, at.number),
    }
}

// An open subtree that was read again: 10 if it is none with that count.
#[tactic(auto, using(crate::proofs::PlanReturns::shut_cases))]
fn shut(here: TreeAt, loose: Loose, count: u32) -> Plan
    ensures { Shuts here (loose_of loose) count result }
{
    match here.tree {
        TokenTree::Leaf(_) => refuse(row::STATE, 0),
        TokenTree::Subtree(subtree) => {
            if subtree.len.0 != count {
                return refuse(row::STATE, 0);
            }
            Plan {
                answer: Ok(Reply::Tree(ReportedTree {
                    tree: here.tree,
                    loose,
                })),
                change: Change::Shut,
            }
        }
    }
}

// The last open subtree, read again at its place and shut.
#[tactic(auto, using(crate::proofs::PlanReturns::last_cases))]
fn shut_last(
    buffer: &Buffer,
    at: At,
    numbers: &[u32; 256],
    counts: &[u32; 256],
    places: &[usize; 256],
) -> Plan
    requires { (0 < at.depth) × (at.depth ≤ 256) }
    ensures { ShutsLast buffer.now.bytes.now (mode_in buffer.now.tables)
        at numbers.now counts.now places.now result }
{
    let last = at.depth - 1;
    let place = places[last];
    match read_tree(buffer, numbers[last], place) {
        Ok(here) => shut(here, loose_at(buffer.bytes, place), counts[last]),
        Err(refusal) => refuse(refusal.number, refusal.tree),
    }
}

// `bump`: closing is 10.
#[tactic(auto, using(crate::proofs::PlanReturns::plan_cases))]
pub(crate) fn plan_bump(
    buffer: &Buffer,
    at: At,
    numbers: &[u32; 256],
    counts: &[u32; 256],
    places: &[usize; 256],
) -> Plan
    ensures { Planned buffer.now.bytes.now buffer.now.trees (mode_in buffer.now.tables) bump
        at numbers.now counts.now places.now result }
{
    if !agrees(buffer, at, numbers, counts, places) {
        return refuse(row::STATE, 0);
    }
    if closes_last(at, numbers, counts) {
        return refuse(row::STATE, 0);
    }
    go_on(buffer, at)
}

// `end`: not closing is 10.
#[tactic(auto, using(crate::proofs::PlanReturns::plan_cases))]
pub(crate) fn plan_end(
    buffer: &Buffer,
    at: At,
    numbers: &[u32; 256],
    counts: &[u32; 256],
    places: &[usize; 256],
) -> Plan
    ensures { Planned buffer.now.bytes.now buffer.now.trees (mode_in buffer.now.tables) end
        at numbers.now counts.now places.now result }
{
    if !agrees(buffer, at, numbers, counts, places) {
        return refuse(row::STATE, 0);
    }
    if !closes_last(at, numbers, counts) {
        return refuse(row::STATE, 0);
    }
    shut_last(buffer, at, numbers, counts, places)
}

// `bump_or_end`: closing shuts, and nothing is read.
#[tactic(auto, using(crate::proofs::PlanReturns::plan_cases))]
pub(crate) fn plan_bump_or_end(
    buffer: &Buffer,
    at: At,
    numbers: &[u32; 256],
    counts: &[u32; 256],
    places: &[usize; 256],
) -> Plan
    ensures { Planned buffer.now.bytes.now buffer.now.trees (mode_in buffer.now.tables) bump_or_end
        at numbers.now counts.now places.now result }
{
    if !agrees(buffer, at, numbers, counts, places) {
        return refuse(row::STATE, 0);
    }
    if closes_last(at, numbers, counts) {
        return done(Change::Shut);
    }
    go_on(buffer, at)
}
