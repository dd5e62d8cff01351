// Rows 2 to 4 of a list whose tree count row 1 has passed.
ghost use Rattle.std.specs.Prelude.{◌≡◌, ◌+◌, ◌<◌, ◌≤◌, get_or, if◌then◌else◌};
ghost use Rattle.format.specs.Builder.{holding_all};
ghost use Rattle.format.specs.Nest.{still_open, innermost};
ghost use Rattle.format.proofs.OpenEnds.{open_ends};
ghost use Rattle.format.specs.Verdict.{refused};
ghost use Rattle.format.specs.WordList.{word_of, list_count, list_rules};
ghost use Rattle.list.specs.Pass.{fields_from, next_sub, is_rooted, nest_below};
ghost use Rattle.tree.specs.Refusal.{verdict_answer};

use pack::row;
use pack::row::Row;
use tree::plain::fields_at;
use tree::refusal::Refusal;
use width::TREE_WORDS;
use width::sort::SUBTREE;

// How many subtrees may be open at once.
const DEPTH: usize = 256;

// Row `number` at tree n.
#[tactic(auto, using(crate::proofs::Returns::refused_answer))]
pub fn refused(number: Row, n: usize) -> Result<(), Refusal>
    requires { n < 4294967296 }
    ensures { result ≡ verdict_answer (refused number n) }
{
    Err(Refusal {
        number,
        tree: n as u32,
    })
}

// ---- row 2

#[tactic(auto, using(crate::proofs::Returns::row_two_cases))]
fn row_two(l: &[u32]) -> Result<(), Refusal>
    requires { list_count l.now ≤ 1048576 }
    ensures { result ≡ verdict_answer (fields_from l.now 0) }
{
    for n in 0..l.len() / TREE_WORDS {
        if !fields_at(l, n) {
            return refused(row::FIELD, n);
        }
    }
    Ok(())
}

// ---- rows 3 and 4

// The first subtree from a tree on, or the count.
#[tactic(auto, using(crate::proofs::Returns::next_cases))]
fn next_subtree(l: &[u32], from: usize) -> usize
    requires { from ≤ list_count l.now }
    ensures { result ≡ next_sub l.now from }
{
    let count = l.len() / TREE_WORDS;
    for n in from..count {
        if l[TREE_WORDS * n] == SUBTREE {
            return n;
        }
    }
    count
}

// How many of the open subtrees, the outermost first, end after tree n.
#[tactic(auto, using(crate::proofs::Returns::open_cases))]
fn still_open(ends: &[u32; DEPTH], depth: usize, n: usize) -> usize
    requires { depth ≤ 256 }
    ensures { (result ≤ depth) × (open_ends ends.now result ≡ still_open n
        (open_ends ends.now depth)) }
{
    for d in (0..depth).rev() {
        if n < ends[d] as usize {
            return d + 1;
        }
    }
    0
}

// The end of the innermost open subtree, or of the list.
#[tactic(auto, using(crate::proofs::Returns::around_cases))]
fn end_around(ends: &[u32; DEPTH], depth: usize, count: usize) -> usize
    requires { (depth ≤ 256) × (count < 4294967296) }
    ensures { (result ≡ innermost count (open_ends ends.now depth)) × (result < 4294967296) }
{
    if depth == 0 {
        count
    } else {
        ends[depth - 1] as usize
    }
}

// The number after the last descendant of subtree n.
fn end_of(l: &[u32], n: usize) -> usize
    requires { (n < list_count l.now) × (list_count l.now ≤ 1048576) }
    ensures { result ≡ n + 1 + word_of l.now n 1 }
{
    n + 1 + l[TREE_WORDS * n + 1] as usize
}

// Whether tree 0 is a subtree that holds all others.
#[tactic(auto, unfolding(crate::specs::Pass::is_rooted))]
fn is_rooted(l: &[u32]) -> bool
    requires { (1 ≤ list_count l.now) × (list_count l.now ≤ 1048576) }
    ensures { result ≡ is_rooted l.now }
{
    l[0] == SUBTREE && end_of(l, 0) == l.len() / TREE_WORDS
}

// The ascending pass from subtree to subtree below the root, with the ends of those that are open, the root's first.
#[tactic(auto, using(crate::proofs::Returns::pass_cases))]
fn nest_pass(l: &[u32], ends: &mut [u32; DEPTH]) -> Result<(), Refusal>
    requires bound { (1 ≤ list_count l.now) × (list_count l.now ≤ 1048576) }
    requires root { get_or ends.old 0 0 ≡ list_count l.now }
    ensures { result ≡ verdict_answer (nest_below l.now) }
{
    let count = l.len() / TREE_WORDS;
    let mut depth: usize = 1;
    let mut n = next_subtree(l, 1);
    while n < count {
        let d = still_open(ends, depth, n);
        let around = end_around(ends, d, count);
        let end = end_of(l, n);
        if around < end {
            return refused(row::NEST, n);
        }
        if DEPTH <= d {
            return refused(row::DEPTH, n);
        }
        ends[d] = end as u32;
        depth = d + 1;
        n = next_subtree(l, n + 1);
    }
    Ok(())
}

// Rows 3 and 4 below a root that is taken to hold all others, whatever count it has stored.
fn nest_below(l: &[u32]) -> Result<(), Refusal>
    requires { (1 ≤ list_count l.now) × (list_count l.now ≤ 1048576) }
    ensures { result ≡ verdict_answer (nest_below l.now) }
{
    let mut ends = [0u32; DEPTH];
    ends[0] = (l.len() / TREE_WORDS) as u32;
    nest_pass(l, &mut ends)
}

// Rows 3 and 4 of a list whose root holds all others, or does not.
fn nest(l: &[u32], rooted: bool) -> Result<(), Refusal>
    requires { (1 ≤ list_count l.now) × (list_count l.now ≤ 1048576) }
    ensures { result ≡ verdict_answer (if rooted then nest_below l.now else refused 3 0) }
{
    if rooted {
        nest_below(l)
    } else {
        refused(row::NEST, 0)
    }
}

// The first of rows 2 to 4 that a list breaks, at the lowest tree.
#[tactic(auto, using(crate::proofs::Returns::rules_cases))]
pub fn list_rules(l: &[u32]) -> Result<(), Refusal>
    requires { (1 ≤ list_count l.now) × (list_count l.now ≤ 1048576) }
    ensures { result ≡ verdict_answer (list_rules l.now) }
{
    row_two(l)?;
    nest(l, is_rooted(l))
}

// The same of a list whose root, where it is a subtree, is taken to hold all others.
#[tactic(auto, using(crate::proofs::Returns::held_cases))]
pub fn list_rules_holding(l: &[u32]) -> Result<(), Refusal>
    requires { (1 ≤ list_count l.now) × (list_count l.now ≤ 1048576) }
    ensures { result ≡ verdict_answer (list_rules (holding_all l.now)) }
{
    row_two(l)?;
    nest(l, l[0] == SUBTREE)
}
