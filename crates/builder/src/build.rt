// `build` and `build_skip_top_subtree`: none may be open; then the writer over the trees made so far.
ghost use Rattle.std.specs.Prelude.{◌≡◌, [], ◌≤◌, length, take, drop};
ghost use Rattle.format.specs.Width.{tree_size};
ghost use Rattle.format.specs.Builder.{holding_all, ready, one_inside};
ghost use Rattle.format.specs.WordList.{list_count};
ghost use Rattle.tree.specs.Refusal.{verdict_answer};
ghost use Rattle.writer.specs.Written.{Written};
ghost use Rattle.builder.specs.State.{state_of, seen};
ghost use Rattle.builder.specs.Building.{Built, BuiltSkipping};

use crate::sort::is_subtree;
use crate::state::Builder;
use crate::steps::rule;
use pack::row;
use tree::refusal::Refusal;
use width::TREE_WORDS;
use writer::write::{encode_holding, encode_list};

// Where the descendant count of tree 1 stands.
const ONE_COUNT: usize = TREE_WORDS + 1;

// Whether tree 1 is a subtree that holds all behind it.
fn one_inside(list: &[u32], count: u32) -> bool
    requires { count ≤ list_count list.now }
    ensures { result ≡ one_inside list.now (state_of count 0 []) }
{
    2 <= count && is_subtree(list, 1) && list[ONE_COUNT] == count - 2
}

impl Builder {
    fn ready(&self, list: &[u32]) -> Result<(), Refusal>
        ensures { result ≡ verdict_answer (ready list.now (seen self.now)) }
    {
        rule(!self.disagrees(list) & (self.depth == 0), row::STATE, 0)
    }

    // The root is taken to hold all others, whatever count it has stored.
    #[tactic(auto, using(crate::proofs::BuildReturns::build_cases))]
    pub fn build(
        self,
        list: &[u32],
        parts: &[u32],
        symbols: &[u32],
        work: &mut [u32],
        out: &mut [u8],
    ) -> Result<usize, Refusal>
        ensures { Built self list.now parts.now symbols.now
            work.old out.old result work.new out.new }
    {
        self.ready(list)?;
        let end = TREE_WORDS * self.count as usize;
        encode_holding(&list[..end], parts, symbols, work, out)
    }

    // Without the root where one subtree holds all others.
    #[tactic(auto, using(crate::proofs::BuildReturns::build_cases, crate::proofs::BuildReturns::front_cases))]
    pub fn build_skip_top_subtree(
        self,
        list: &[u32],
        parts: &[u32],
        symbols: &[u32],
        work: &mut [u32],
        out: &mut [u8],
    ) -> Result<usize, Refusal>
        ensures { BuiltSkipping self list.now parts.now symbols.now
            work.old out.old result work.new out.new }
    {
        self.ready(list)?;
        let end = TREE_WORDS * self.count as usize;
        if one_inside(list, self.count) {
            encode_list(&list[TREE_WORDS..end], parts, symbols, work, out)
        } else {
            encode_holding(&list[..end], parts, symbols, work, out)
        }
    }
}
