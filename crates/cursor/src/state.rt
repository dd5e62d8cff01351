// A cursor without its arrays.
#[derive(Clone, Copy)]
pub struct At {
    pub place: usize,
    pub number: u32,
    pub depth: usize,
}

// More open subtrees than this are a disagreement.
pub const MOST_OPEN: usize = 256;
