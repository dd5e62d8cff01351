// The tables of one mode: how far indices reach, and the three runs they reach into.
ghost use Rattle.tree.specs.Mode.{Whole};

use crate::limits::Limits;

#[derive(Clone, Copy)]
pub struct Tables<'a> {
    pub limits: Limits,
    pub parts: &'a [u32],
    // The root's two parts.
    pub pair: &'a [u32],
    pub symbols: &'a [u32],
    ghost whole: { Whole limits parts.now pair.now symbols.now },
}
