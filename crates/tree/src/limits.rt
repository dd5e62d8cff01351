// How far a tree's indices reach. What is below the public functions takes this beside the runs of one table mode.
ghost use Rattle.std.specs.Prelude.{◌≡◌, ◌-◌};
ghost use Rattle.format.specs.Tables.{own_limits};
ghost use Rattle.tree.specs.Mode.{limits_of};

#[derive(Clone, Copy)]
pub struct Limits {
    // A part below the root has an index below this.
    pub limit: usize,
    // The index of the root's open part; that of its close part is the next.
    pub root: usize,
    pub symbols: usize,
}

// The last two parts are the root's.
const ROOT_PARTS: usize = 2;

// Of tables with so many parts and symbols.
pub fn own_limits(parts: usize, symbols: usize) -> Limits
    ensures { (limits_of result ≡ own_limits parts symbols) × (result.limit ≡ parts - 2) }
{
    let below = parts.saturating_sub(ROOT_PARTS);
    Limits {
        limit: below,
        root: below,
        symbols,
    }
}
