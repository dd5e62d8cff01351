// The keys of a list, by their numbers: their places, what two of them have in common, their hashes.
ghost use Rattle.std.specs.Prelude.{◌≡◌, ◌+◌, ◌*◌, ◌≤◌, ◌<◌, length, get_or, eqb};
ghost use Rattle.std.proofs.lemmas.List.Edits.{sets};
ghost use Rattle.format.specs.Width.{part_size, tree_size};
ghost use Rattle.format.specs.Part.{part_words};
ghost use Rattle.format.specs.MakeTables.{key_count, live_at, key_place, key_words, alike_at, limit_of};
ghost use Rattle.keys.specs.Keys.{part_in, slot_of, class_of, live_in, place_in};

use crate::run::set_at;
use slots::hash::mix;
use width::{OPEN_AT, PART_WORDS, SPAN_WORDS, TREE_WORDS};

// The keys of a list: its symbols, or its parts.
#[derive(Clone, Copy)]
pub struct Keys<'a> {
    pub list: &'a [u32],
    pub symbols: bool,
    // A number of a key fits a word.
    ghost few: { key_count list.now symbols < 4294967295 },
}

impl Keys<'_> {
    pub fn count(&self) -> usize
        ensures { result ≡ key_count self.now.list.now self.now.symbols }
    {
        let k = self.list.len() / TREE_WORDS;
        if k == 0 {
            return 0;
        }
        if self.symbols {
            return k - 1;
        }
        2 * (k - 1)
    }

    fn place_of(&self, v: usize) -> usize
        requires { v < key_count self.now.list.now self.now.symbols }
        ensures { (result ≡ key_place self.now.symbols v) × (result + part_size ≤ length self.now.list.now) }
    {
        place_of(self.list, self.symbols, v)
    }

    // Word 0 of tree n.
    fn sort_of(&self, n: usize) -> u32
        requires { tree_size * n + tree_size ≤ length self.now.list.now }
        ensures { result ≡ get_or self.now.list.now (tree_size * n) 0 }
    {
        self.list[TREE_WORDS * n]
    }

    // Whether number v is a key.
    pub fn is_live(&self, v: usize) -> bool
        requires { v < key_count self.now.list.now self.now.symbols }
        ensures { result ≡ live_at self.now.list.now self.now.symbols v }
    {
        if self.symbols {
            let kind = self.sort_of(v + 1);
            return kind == 1 || kind == 2;
        }
        v % 2 == 0 || self.sort_of(v / 2 + 1) == 3
    }

    // Whether two keys are the same.
    pub fn alike(&self, u: usize, v: usize) -> bool
        requires u_bound { u < key_count self.now.list.now self.now.symbols }
        requires v_bound { v < key_count self.now.list.now self.now.symbols }
        ensures { result ≡ alike_at self.now.list.now self.now.symbols u v }
    {
        alike(self.list, self.symbols, u, v)
    }

    // The slot where key v is looked for first.
    pub fn slot(&self, v: usize, size: usize) -> usize
        requires v_bound { v < key_count self.now.list.now self.now.symbols }
        requires sizes { (0 < size) × (size ≤ 1048576) }
        ensures { (result ≡ slot_of self.now.list.now self.now.symbols size v) × (result < size) }
    {
        slot(self.list, self.symbols, v, size)
    }

    fn class_of(&self, v: usize, classes: usize) -> usize
        requires v_bound { v < key_count self.now.list.now self.now.symbols }
        requires sizes { (0 < classes) × (classes ≤ 1048576) }
        ensures { (result ≡ class_of self.now.list.now self.now.symbols classes v) × (result < classes) }
    {
        let l = self.list;
        let a = self.place_of(v);
        if self.symbols {
            return mix(0, l[a], 0, classes);
        }
        mix(l[a + 2], l[a], l[a + 1], classes)
    }

    // Whether number v is a key of the class.
    pub fn is_live_in(&self, classes: usize, class: usize, v: usize) -> bool
        requires v_bound { v < key_count self.now.list.now self.now.symbols }
        requires classes_bound { classes ≤ 1048576 }
        ensures { result ≡ live_in self.now.list.now self.now.symbols classes class v }
    {
        self.is_live(v) && (classes <= 1 || self.class_of(v, classes) == class)
    }

    // Stores key v as the k-th of a run.
    pub fn put(&self, v: usize, out: &mut [u32], k: usize)
        requires { (v < key_count self.now.list.now self.now.symbols) × (k < 4294967295) }
        ensures { out.new ≡ sets out.old (place_in self.now.symbols k)
            (key_words self.now.list.now self.now.symbols v) }
    {
        let l = self.list;
        let a = self.place_of(v);
        if self.symbols {
            set_at(out, k, l[a]);
            return;
        }
        put_part(l, a, out, PART_WORDS * k);
    }
}

// ---- the same of a list of any length

fn place_of(l: &[u32], symbols: bool, v: usize) -> usize
    requires { (v < key_count l.now symbols) × (v < 4294967295) }
    ensures { (result ≡ key_place symbols v) × (result + part_size ≤ length l.now) }
{
    if symbols {
        return TREE_WORDS * (v + 1) + 1;
    }
    TREE_WORDS * (v / 2 + 1) + (OPEN_AT + SPAN_WORDS * (v % 2))
}

// Whether two keys are the same.
pub fn alike(l: &[u32], symbols: bool, u: usize, v: usize) -> bool
    requires u_bound { (u < key_count l.now symbols) × (u < 4294967295) }
    requires v_bound { (v < key_count l.now symbols) × (v < 4294967295) }
    ensures { result ≡ alike_at l.now symbols u v }
{
    let a = place_of(l, symbols, u);
    let b = place_of(l, symbols, v);
    l[a] == l[b] && (symbols || l[a + 1] == l[b + 1] && l[a + 2] == l[b + 2])
}

// The slot where key v is looked for first.
pub fn slot(l: &[u32], symbols: bool, v: usize, size: usize) -> usize
    requires { (v < key_count l.now symbols) × (v < 4294967295) × (0 < size) × (size ≤ 1048576) }
    ensures { (result ≡ slot_of l.now symbols size v) × (result < size) }
{
    let a = place_of(l, symbols, v);
    if symbols {
        return mix(l[a], 0, 0, size);
    }
    mix(l[a], l[a + 1], l[a + 2], size)
}

// The word where key k begins in a run of keys.
pub fn place_in(symbols: bool, k: usize) -> usize
    requires { k < 4294967295 }
    ensures { (result ≡ place_in symbols k) × (result ≤ part_size * k) }
{
    if symbols { k } else { PART_WORDS * k }
}

// More distinct keys than this are ordered by their counts.
pub fn limit_of(symbols: bool) -> usize
    ensures { result ≡ limit_of symbols }
{
    if symbols { 63 } else { 15 }
}

// Stores the words of a part.
fn put_words(out: &mut [u32], at: usize, file: u32, ast: u32, context: u32)
    requires { at ≤ part_size * 4294967295 }
    ensures { out.new ≡ sets out.old at
        (part_words (record { file = file; ast = ast; context = context })) }
{
    set_at(out, at, file);
    set_at(out, at + 1, ast);
    set_at(out, at + 2, context);
}

// Stores the part whose words begin at `from`.
pub fn put_part(l: &[u32], from: usize, out: &mut [u32], at: usize)
    requires { (from + part_size ≤ length l.now) × (at ≤ part_size * 4294967295) }
    ensures { out.new ≡ sets out.old at (part_words (part_in l.now from)) }
{
    put_words(out, at, l[from], l[from + 1], l[from + 2]);
}
