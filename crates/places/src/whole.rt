// Trees whose two tables are both indexed whole: all their indices in one pass.
ghost use Rattle.std.specs.Prelude.{◌≡◌, true, ◌+◌, ◌<◌, ◌≤◌, length, get_or};
ghost use Rattle.format.specs.WordList.{word_of, raw_from, list_count};
ghost use Rattle.format.specs.Writer.{find, raw_of};
ghost use Rattle.places.specs.Key.{part_of, key_at, key_count, is_key, named};
ghost use Rattle.places.specs.declared.key.Layout.TheVariants.{Parts, Symbols, Close, Name};
ghost use Rattle.places.specs.Places.{Resolved, Whole};
ghost use Rattle.places.specs.Tables.{mode_below};

use crate::index::Index;
use crate::key::{Key, Layout, is_named, key_at, symbol_key};
use crate::keys::Keys;
use crate::tables::Tables;
use width::TREE_WORDS;
use width::sort::LITERAL;

// What a tree does not use may be any.
#[derive(Clone, Copy)]
pub struct Indices {
    pub opening: u32,
    pub closing: u32,
    pub symbol: u32,
}

// Tables with all their entries in slots.
#[derive(Clone, Copy)]
pub(crate) struct WholeTables<'a> {
    pub tables: Tables<'a>,
    pub part_slots: &'a [u32],
    pub symbol_slots: &'a [u32],
    ghost whole: { Whole tables.limit tables.parts.now tables.symbols.now part_slots.now
        symbol_slots.now },
}

impl<'a> WholeTables<'a> {
    // A part's first place below the limit.
    #[tactic(auto, using(crate::proofs::WholeReturns::place_cases))]
    fn part_place(&self, k: Key) -> u32
        ensures { result ≡ find (is_key (key_at self.now.tables.parts.now Parts) (part_of k)) self.now.tables.limit 0 }
    {
        let keys = Keys {
            words: self.tables.parts,
            layout: Layout::Parts,
            base: 0,
        };
        let index = Index {
            keys,
            len: self.tables.limit,
            slots: self.part_slots,
        };
        index.place(k)
    }

    #[tactic(auto, using(crate::proofs::WholeReturns::place_cases))]
    fn symbol_place(&self, k: Key) -> u32
        ensures { result ≡ find (is_key (key_at self.now.tables.symbols.now Symbols) (part_of k))
            (length self.now.tables.symbols.now) 0 }
    {
        let keys = Keys {
            words: self.tables.symbols,
            layout: Layout::Symbols,
            base: 0,
        };
        let index = Index {
            keys,
            len: self.tables.symbols.len(),
            slots: self.symbol_slots,
        };
        index.place(k)
    }

    // The close part's place: as a rule it is the open part's, which is o.
    fn close_place(&self, opening: Key, closing: Key, o: u32) -> u32
        requires { o ≡ find (is_key (key_at self.now.tables.parts.now Parts) (part_of opening))
            self.now.tables.limit 0 }
        ensures { result ≡ find (is_key (key_at self.now.tables.parts.now Parts) (part_of closing))
            self.now.tables.limit 0 }
    {
        if closing == opening {
            o
        } else {
            self.part_place(closing)
        }
    }
}

// The close part of a subtree; of a leaf, which has none, the open one.
fn close_or_open(l: &[u32], n: usize, sort: u32, opening: Key) -> Key
    requires { n < key_count l.now Close }
    ensures { (2 < sort) → (part_of result ≡ key_at l.now Close n) }
{
    let closing = key_at(l, Layout::Close, n);
    if sort <= LITERAL { opening } else { closing }
}

// The symbol of a tree that has one; of another, the first of the table, which is found at once.
#[tactic(auto, using(crate::proofs::WholeReturns::pick_cases))]
fn name_or_first(l: &[u32], n: usize, sort: u32, symbols: &[u32]) -> Key
    requires { n < key_count l.now Name }
    ensures { (named sort ≡ true) → (part_of result ≡ key_at l.now Name n) }
{
    let name = key_at(l, Layout::Name, n);
    let first = symbol_key(if symbols.is_empty() { 0 } else { symbols[0] });
    if is_named(sort) { name } else { first }
}

// No branch by the sort: which part and which symbol is looked for, is.
#[tactic(auto, using(crate::proofs::WholeReturns::tree_indices_cases))]
fn tree_indices(whole: &WholeTables, l: &[u32], n: usize) -> Indices
    requires { (n < list_count l.now) × (1 ≤ n) }
    ensures { raw_from result.opening result.closing result.symbol (word_of l.now n) ≡ raw_of
        (mode_below whole.now.tables) l.now n }
{
    let sort = l[TREE_WORDS * n];
    let opening = key_at(l, Layout::Open, n);
    let closing = close_or_open(l, n, sort, opening);
    let name = name_or_first(l, n, sort, whole.tables.symbols);
    let o = whole.part_place(opening);
    Indices {
        opening: o,
        closing: whole.close_place(opening, closing, o),
        symbol: whole.symbol_place(name),
    }
}

#[tactic(auto, using(crate::proofs::WholeReturns::resolve_whole_cases))]
pub(crate) fn resolve_whole<'a>(
    tables: Tables<'a>,
    part_slots: &'a [u32],
    symbol_slots: &'a [u32],
    l: &[u32],
    from: usize,
    opens: &mut [u32],
    closes: &mut [u32],
    syms: &mut [u32],
)
    requires whole { Whole tables.limit tables.parts.now tables.symbols.now part_slots.now symbol_slots.now }
    requires le_from { (1 ≤ from) × (length closes.old ≡ length opens.old) ×
        (length syms.old ≡ length opens.old) }
    ensures { Resolved (mode_below tables.entry) l.now from (length opens.old) opens.new closes.new syms.new }
{
    let whole = WholeTables {
        tables,
        part_slots,
        symbol_slots,
    };
    let m = opens.len().min((l.len() / TREE_WORDS).saturating_sub(from));
    for i in 0..m {
        let x = tree_indices(&whole, l, from + i);
        opens[i] = x.opening;
        closes[i] = x.closing;
        syms[i] = x.symbol;
    }
}
