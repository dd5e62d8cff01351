// The first word of a tree in a list: its sort.
pub const PUNCT: u32 = 0;

pub const IDENT: u32 = 1;

pub const LITERAL: u32 = 2;

pub const SUBTREE: u32 = 3;
