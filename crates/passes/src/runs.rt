// The tables of one mode as they are lent: how far indices reach, and the three runs they reach into. Unlike tree's
// `Tables`, nothing is known of them: what a pass asks stands in its clauses.
use tree::limits::Limits;

#[derive(Clone, Copy)]
pub struct Runs<'a> {
    pub limits: Limits,
    pub parts: &'a [u32],
    // The root's two parts.
    pub pair: &'a [u32],
    pub symbols: &'a [u32],
}
