// Tables whose last two parts are the root's, as one value.
ghost use Rattle.std.specs.Prelude.{◌≡◌, true};
ghost use Rattle.format.specs.Tables.{own_mode};
ghost use Rattle.tree.specs.Tables.{mode_in};

use crate::limits::own_limits;
use crate::tables::Tables;
use width::PART_WORDS;

// Row 1 was asked.
pub fn own_tables<'a>(parts: &'a [u32], symbols: &'a [u32]) -> Tables<'a>
    requires { (own_mode parts.now symbols.now).sized ≡ true }
    ensures { mode_in result ≡ own_mode parts.now symbols.now }
{
    let limits = own_limits(parts.len() / PART_WORDS, symbols.len());
    let pair = &parts[PART_WORDS * limits.limit..];
    Tables {
        limits,
        parts,
        pair,
        symbols,
    }
}
