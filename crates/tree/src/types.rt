// The types of the source, by value. A symbol is its table entry; characters and numbers are those of the list words.
use crate::raw::Descendants;

#[derive(Clone, Copy, PartialEq, Eq)]
pub struct Span {
    pub file: u32,
    pub ast_id: u32,
    pub context: u32,
    pub start: u32,
    pub len: u32,
}

#[derive(Clone, Copy, PartialEq, Eq)]
pub enum Spacing {
    Alone,
    Joint,
    JointHidden,
}

#[derive(Clone, Copy, PartialEq, Eq)]
pub enum IdentIsRaw {
    No,
    Yes,
}

#[derive(Clone, Copy, PartialEq, Eq)]
pub enum DelimiterKind {
    Parenthesis,
    Brace,
    Bracket,
    Invisible,
}

#[derive(Clone, Copy, PartialEq, Eq)]
pub enum LitKind {
    Byte,
    Char,
    Integer,
    Float,
    Str,
    StrRaw(u32),
    ByteStr,
    ByteStrRaw(u32),
    CStr,
    CStrRaw(u32),
    Err,
}

#[derive(Clone, Copy)]
pub struct Punct {
    pub char: u32,
    pub spacing: Spacing,
    pub span: Span,
}

#[derive(Clone, Copy)]
pub struct Ident {
    pub sym: u32,
    pub span: Span,
    pub is_raw: IdentIsRaw,
}

#[derive(Clone, Copy)]
pub struct Literal {
    pub text_and_suffix: u32,
    pub span: Span,
    pub kind: LitKind,
    pub suffix_len: u32,
}

#[derive(Clone, Copy)]
pub struct Subtree {
    pub opening: Span,
    pub closing: Span,
    pub len: Descendants,
    pub kind: DelimiterKind,
}

#[derive(Clone, Copy)]
pub enum Leaf {
    Punct(Punct),
    Ident(Ident),
    Literal(Literal),
}

#[derive(Clone, Copy)]
pub enum TokenTree {
    Leaf(Leaf),
    Subtree(Subtree),
}
