// The sorts of trees, by the number that is the first of a tree's list words.
pub type Sort = u32;

pub const PUNCT: Sort = 0;

pub const IDENT: Sort = 1;

pub const LITERAL: Sort = 2;

pub const SUBTREE: Sort = 3;
