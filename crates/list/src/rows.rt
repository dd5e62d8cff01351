// Rows 1 to 4 of a list that goes with no tables.
ghost use Rattle.std.specs.Prelude.{◌≡◌};
ghost use Rattle.format.specs.WordList.{list_sized, list_rows};
ghost use Rattle.tree.specs.Refusal.{verdict_answer};

use crate::sized::{list_rules, refused};
use pack::row;
use tree::refusal::Refusal;
use width::TREE_WORDS;

const MOST_TREES: usize = 1048576;

// Whether row 1 is silent on a list.
pub fn list_sized(l: &[u32]) -> bool
    ensures { result ≡ list_sized l.now }
{
    let count = l.len() / TREE_WORDS;
    l.len() % TREE_WORDS == 0 && 1 <= count && count <= MOST_TREES
}

// The first of rows 1 to 4 that a list breaks, at the lowest tree.
#[tactic(auto, using(crate::proofs::Returns::rows_cases))]
pub fn list_rows(l: &[u32]) -> Result<(), Refusal>
    ensures { result ≡ verdict_answer (list_rows l.now) }
{
    if list_sized(l) {
        list_rules(l)
    } else {
        refused(row::SIZE, 0)
    }
}
