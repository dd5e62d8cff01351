// A list with its own tables.
ghost use Rattle.replace.specs.Own.{OwnTables};

#[derive(Clone, Copy)]
pub(crate) struct Own<'a> {
    pub(crate) list: &'a [u32],
    pub(crate) parts: &'a [u32],
    pub(crate) symbols: &'a [u32],
    ghost tables: { OwnTables list.now parts.now symbols.now },
}
