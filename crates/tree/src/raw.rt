// A tree as it is packed: its spans and its symbol are named by index, its kinds are numbers not yet judged.
ghost use Rattle.std.specs.Prelude.{◌≡◌, ◌<◌};

use pack::span::PackedSpan;

// The bytes of all descendants of a subtree, and their number: one cannot be handed where the other is due.
#[derive(Clone, Copy)]
pub struct ChildrenBytes(pub u32);

#[derive(Clone, Copy)]
pub struct Descendants(pub u32);

#[derive(Clone, Copy)]
pub struct RawPunct {
    pub span: PackedSpan,
    pub char: u32,
    pub spacing: u32,
}

#[derive(Clone, Copy)]
pub struct RawIdent {
    pub span: PackedSpan,
    pub symbol: u32,
    pub raw: u32,
}

#[derive(Clone, Copy)]
pub struct RawLiteral {
    pub span: PackedSpan,
    pub symbol: u32,
    pub kind: u32,
    pub raw_count: u32,
    pub suffix_len: u32,
}

#[derive(Clone, Copy)]
pub struct RawSubtree {
    pub opening: PackedSpan,
    pub closing: PackedSpan,
    pub len: Descendants,
    pub kind: u32,
}

#[derive(Clone, Copy)]
pub enum RawTree {
    Punct(RawPunct),
    Ident(RawIdent),
    Literal(RawLiteral),
    Subtree(RawSubtree),
}

// A tree that was read, the place behind it, and a subtree's children bytes.
#[derive(Clone, Copy)]
pub struct At<T> {
    pub tree: T,
    pub next: usize,
    pub children: ChildrenBytes,
}

// With its indices.
pub type RawAt = At<RawTree>;

// An index as a place: two more than it is still a place.
pub fn place(index: u32) -> usize
    ensures { (result ≡ index) × (result < 4294967296) }
{
    index as usize
}
