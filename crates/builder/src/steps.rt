// `new`, `push`, `open`, `close`: each step's refusals in turn, then its stores.
ghost use Rattle.std.specs.Prelude.{◌≡◌, ◌<◌};
ghost use Rattle.format.specs.Verdict.{rule};
ghost use Rattle.format.specs.Builder.{push, open_subtree, close_subtree};
ghost use Rattle.format.specs.Builder.{agreed, new_verdict, room, push_verdict, open_verdict, close_verdict};
ghost use Rattle.tree.specs.Refusal.{verdict_answer};
ghost use Rattle.tree.specs.Types.{words_of};
ghost use Rattle.builder.specs.State.{seen};
ghost use Rattle.builder.specs.Given.{pushed};
ghost use Rattle.builder.specs.Taken.{none_open, Begun, Taken};

use crate::range::{leaf_words, span_fits, subtree_words, words_fit};
use crate::state::{Builder, MOST_OPEN, MOST_TREES, Stepped};
use crate::store::close_tree;
use pack::row;
use pack::row::Row;
use tree::refusal::Refusal;
use tree::types::{Leaf, Span};
use tree::unchecked::put_words;
use width::TREE_WORDS;

// The last delimiter kind.
const MOST_KIND: u32 = 3;

// Row `number` at a tree, unless it holds.
#[tactic(auto, using(crate::proofs::StepReturns::rule_cases))]
pub(crate) fn rule(holds: bool, number: Row, tree: u32) -> Result<(), Refusal>
    ensures { result ≡ verdict_answer (rule holds number tree) }
{
    if holds {
        Ok(())
    } else {
        Err(Refusal { number, tree })
    }
}

fn new_verdict(list: &[u32], kind: u32, opening: Span, closing: Span) -> Result<(), Refusal>
    ensures { result ≡ verdict_answer
        (new_verdict kind (words_of opening) (words_of closing) list.now) }
{
    rule(
        (kind <= MOST_KIND) & span_fits(opening) & span_fits(closing),
        row::FIELD,
        0,
    )?;
    rule(1 <= list.len() / TREE_WORDS, row::ROOM, 0)
}

// So many trees, none open.
fn none_open(count: u32) -> Builder
    ensures { result ≡ none_open count }
{
    Builder {
        count,
        depth: 0,
        opened: [0; 256],
    }
}

impl Builder {
    fn agreed(&self, list: &[u32]) -> Result<(), Refusal>
        ensures { result ≡ verdict_answer (agreed list.now (seen self.now)) }
    {
        rule(!self.disagrees(list), row::STATE, self.count)
    }

    // Rows 1 and 6 for one more tree.
    fn room(&self, list: &[u32]) -> Result<(), Refusal>
        ensures { result ≡ verdict_answer (room list.now (seen self.now)) }
    {
        rule(self.count < MOST_TREES, row::SIZE, self.count)?;
        rule(
            (self.count as usize) < list.len() / TREE_WORDS,
            row::ROOM,
            self.count,
        )
    }

    fn push_verdict(&self, list: &[u32], words: &[u32; TREE_WORDS]) -> Result<(), Refusal>
        ensures { result ≡ verdict_answer (push_verdict list.now (seen self.now) words.now) }
    {
        self.agreed(list)?;
        rule(words_fit(words), row::FIELD, self.count)?;
        self.room(list)
    }

    fn open_verdict(&self, list: &[u32], kind: u32, span: Span) -> Result<(), Refusal>
        ensures { result ≡ verdict_answer
            (open_verdict list.now (seen self.now) kind (words_of span)) }
    {
        self.agreed(list)?;
        rule(
            (kind <= MOST_KIND) & span_fits(span),
            row::FIELD,
            self.count,
        )?;
        rule(self.depth < MOST_OPEN, row::DEPTH, self.count)?;
        self.room(list)
    }

    fn close_verdict(&self, list: &[u32], span: Span) -> Result<(), Refusal>
        ensures { result ≡ verdict_answer
            (close_verdict list.now (seen self.now) (words_of span)) }
    {
        self.agreed(list)?;
        rule(1 <= self.depth, row::STATE, self.count)?;
        rule(span_fits(span), row::FIELD, self.count)
    }

    // A builder of the root alone.
    #[tactic(auto, using(crate::proofs::TakenReturns::new_cases))]
    pub fn new(list: &mut [u32], kind: u32, opening: Span, closing: Span) -> Stepped
        ensures { Begun kind opening closing list.old result list.new }
    {
        let verdict = new_verdict(list, kind, opening, closing);
        if let Err(_) = verdict {
            return Stepped {
                verdict,
                builder: none_open(0),
            };
        }
        put_words(list, 0, &subtree_words(kind, opening, closing));
        Stepped {
            verdict,
            builder: none_open(1),
        }
    }

    #[tactic(auto, using(crate::proofs::TakenReturns::push_cases))]
    pub fn push(self, list: &mut [u32], leaf: Leaf) -> Stepped
        ensures { Taken (push (pushed leaf)) self list.old result list.new }
    {
        self.push_words(list, &leaf_words(leaf))
    }

    // A leaf by its list words, of which row 2 is asked as they are.
    #[tactic(auto, using(crate::proofs::TakenReturns::push_cases))]
    pub fn push_words(self, list: &mut [u32], words: &[u32; TREE_WORDS]) -> Stepped
        ensures { Taken (push words.now) self list.old result list.new }
    {
        let verdict = self.push_verdict(list, words);
        if let Err(_) = verdict {
            return Stepped {
                verdict,
                builder: self,
            };
        }
        put_words(list, TREE_WORDS * self.count as usize, words);
        Stepped {
            verdict,
            builder: Builder {
                count: self.count + 1,
                ..self
            },
        }
    }

    // Its close span is the open one until it is closed.
    #[tactic(auto, using(crate::proofs::TakenReturns::open_cases))]
    pub fn open(mut self, list: &mut [u32], kind: u32, opening: Span) -> Stepped
        ensures { Taken (open_subtree kind (words_of opening)) self list.old result list.new }
    {
        let verdict = self.open_verdict(list, kind, opening);
        if let Err(_) = verdict {
            return Stepped {
                verdict,
                builder: self,
            };
        }
        let words = subtree_words(kind, opening, opening);
        put_words(list, TREE_WORDS * self.count as usize, &words);
        self.opened[self.depth] = self.count;
        self.depth += 1;
        self.count += 1;
        Stepped {
            verdict,
            builder: self,
        }
    }

    #[tactic(auto, using(crate::proofs::TakenReturns::close_step_cases))]
    pub fn close(mut self, list: &mut [u32], closing: Span) -> Stepped
        ensures { Taken (close_subtree (words_of closing)) self list.old result list.new }
    {
        let verdict = self.close_verdict(list, closing);
        if let Err(_) = verdict {
            return Stepped {
                verdict,
                builder: self,
            };
        }
        let last = self.opened[self.depth - 1];
        close_tree(list, last as usize, self.count - (last + 1), closing);
        self.depth -= 1;
        Stepped {
            verdict,
            builder: self,
        }
    }
}
