// Widths and places of the list's words: the twins of the names in specs/Width of crate format.
#![tactic(auto)]

pub mod sort;

// A span part: file, ast id, context.
pub const PART_WORDS: usize = 3;

// A part, start, length.
pub const SPAN_WORDS: usize = PART_WORDS + 2;

// Where a tree's span stands, or its opening one, behind its sort and two words of its own.
pub const OPEN_AT: usize = 3;

// Where its closing span stands.
pub const CLOSE_AT: usize = OPEN_AT + SPAN_WORDS;

pub const TREE_WORDS: usize = CLOSE_AT + SPAN_WORDS;

// Where the words of these spans stand that are asked for one by one.
pub const OPEN_START: usize = OPEN_AT + PART_WORDS;

pub const OPEN_LEN: usize = OPEN_START + 1;

pub const CLOSE_FILE: usize = CLOSE_AT;

pub const CLOSE_AST: usize = CLOSE_AT + 1;

pub const CLOSE_CONTEXT: usize = CLOSE_AT + 2;

pub const CLOSE_START: usize = CLOSE_AT + PART_WORDS;

pub const CLOSE_LEN: usize = CLOSE_START + 1;
