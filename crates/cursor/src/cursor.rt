// The cursor by value: every step takes it and hands back the next. That copies its arrays once in and once out; the
// step itself is that of `lent`.
ghost use Rattle.std.specs.Prelude.{◌≡◌};
ghost use Rattle.format.specs.Cursor.{bump, end, bump_or_end};
ghost use Rattle.cursor.specs.Look.{TellsOf, PeeksOf};
ghost use Rattle.cursor.specs.Moves.{at_of, fresh_cursor, Stepped};

use crate::lent::{bump, bump_or_end, end};
use crate::look::{Ahead, peek_two_leaves, token_tree};
use crate::plan::Reply;
use crate::state::At;
use tree::refusal::Refusal;

// The entries below `depth` are the open subtrees.
#[derive(Clone, Copy)]
pub struct Cursor {
    pub place: usize,
    pub number: u32,
    pub depth: usize,
    pub numbers: [u32; 256],
    pub counts: [u32; 256],
    pub places: [usize; 256],
}

// What a call answers, and the next cursor.
#[derive(Clone, Copy)]
pub struct Next {
    pub answer: Result<Reply, Refusal>,
    pub cursor: Cursor,
}

// At the first tree, with none open.
pub fn fresh() -> Cursor
    ensures { result ≡ fresh_cursor }
{
    Cursor {
        place: 0,
        number: 0,
        depth: 0,
        numbers: [0; 256],
        counts: [0; 256],
        places: [0; 256],
    }
}

impl Cursor {
    fn at(self) -> At
        ensures { result ≡ at_of self }
    {
        At {
            place: self.place,
            number: self.number,
            depth: self.depth,
        }
    }

    pub fn bump(self, b: &[u8], trees: u32, parts: &[u32], symbols: &[u32]) -> Next
        ensures { Stepped b.now trees parts.now symbols.now bump self result }
    {
        let mut numbers = self.numbers;
        let mut counts = self.counts;
        let mut places = self.places;
        let moved = bump(
            b,
            trees,
            parts,
            symbols,
            self.at(),
            &mut numbers,
            &mut counts,
            &mut places,
        );
        Next {
            answer: moved.answer,
            cursor: Cursor {
                place: moved.at.place,
                number: moved.at.number,
                depth: moved.at.depth,
                numbers,
                counts,
                places,
            },
        }
    }

    pub fn end(self, b: &[u8], trees: u32, parts: &[u32], symbols: &[u32]) -> Next
        ensures { Stepped b.now trees parts.now symbols.now end self result }
    {
        let mut numbers = self.numbers;
        let mut counts = self.counts;
        let mut places = self.places;
        let moved = end(
            b,
            trees,
            parts,
            symbols,
            self.at(),
            &mut numbers,
            &mut counts,
            &mut places,
        );
        Next {
            answer: moved.answer,
            cursor: Cursor {
                place: moved.at.place,
                number: moved.at.number,
                depth: moved.at.depth,
                numbers,
                counts,
                places,
            },
        }
    }

    pub fn bump_or_end(self, b: &[u8], trees: u32, parts: &[u32], symbols: &[u32]) -> Next
        ensures { Stepped b.now trees parts.now symbols.now bump_or_end self result }
    {
        let mut numbers = self.numbers;
        let mut counts = self.counts;
        let mut places = self.places;
        let moved = bump_or_end(
            b,
            trees,
            parts,
            symbols,
            self.at(),
            &mut numbers,
            &mut counts,
            &mut places,
        );
        Next {
            answer: moved.answer,
            cursor: Cursor {
                place: moved.at.place,
                number: moved.at.number,
                depth: moved.at.depth,
                numbers,
                counts,
                places,
            },
        }
    }

    pub fn token_tree(
        self,
        b: &[u8],
        trees: u32,
        parts: &[u32],
        symbols: &[u32],
    ) -> Result<Reply, Refusal>
        ensures { TellsOf b.now trees parts.now symbols.now self result }
    {
        token_tree(
            b,
            trees,
            parts,
            symbols,
            self.at(),
            &self.numbers,
            &self.counts,
            &self.places,
        )
    }

    pub fn peek_two_leaves(
        self,
        b: &[u8],
        trees: u32,
        parts: &[u32],
        symbols: &[u32],
    ) -> Result<Option<[Ahead; 2]>, Refusal>
        ensures { PeeksOf b.now trees parts.now symbols.now self result }
    {
        peek_two_leaves(
            b,
            trees,
            parts,
            symbols,
            self.at(),
            &self.numbers,
            &self.counts,
            &self.places,
        )
    }
}
