// More keys than arrays have room for: class by class, a class of a key being given by a hash of it. If a class has
// too many keys, there are to be twice as many classes.
ghost use Rattle.std.specs.Prelude.{◌≡◌, ◌+◌, ◌≤◌, ◌<◌, length};
ghost use Rattle.format.specs.MakeTables.{key_count};
ghost use Rattle.distinct.specs.Gathered.{Filled};
ghost use Rattle.keys.specs.Runs.{Room};
ghost use Rattle.distinct.specs.Classes.{Copied, Held, HeldIf, ClassIf, PairedIf, NumberIf};

use crate::gather::gather;
use crate::sizes::{MIDDLE_ROOM, MIDDLE_SLOTS};
use keys::key::{Keys, limit_of};

// Classes are doubled up to so many.
const MOST_CLASSES: usize = 256;

// Numbers and counts join the pairs.
fn append(
    firsts: &[u32],
    counts: &[u32],
    q: usize,
    at: usize,
    words: &mut [u32],
    tallies: &mut [u32],
)
    requires { (at + q ≤ length words.old) × (at + q ≤ length tallies.old)
        × (q ≤ length firsts.now) × (q ≤ length counts.now) }
    ensures numbers { Copied at q firsts.now words.old words.new }
    ensures counts { Copied at q counts.now tallies.old tallies.new }
{
    words[at..at + q].copy_from_slice(&firsts[..q]);
    tallies[at..at + q].copy_from_slice(&counts[..q]);
}

// The keys of one class, gathered with these arrays, join the pairs.
fn join_class(
    keys: &Keys,
    classes: usize,
    class: usize,
    at: usize,
    words: &mut [u32],
    tallies: &mut [u32],
    table: &mut [u32],
    firsts: &mut [u32],
    counts: &mut [u32],
) -> Option<usize>
    requires classes_bound { (1 < classes) × (classes ≤ 1048576) }
    requires table_nonzero { (0 < length table.old) × (length table.old ≤ 1048576) }
    requires firsts_len_bound { (length firsts.old ≤ 1048576) × (length counts.old ≡ length firsts.old) }
    requires filled { Filled keys.now.list.now keys.now.symbols classes class (length table.old) 0 0 table.old firsts.old
        counts.old }
    requires room { Room keys.now.list.now keys.now.symbols words.old tallies.old
        × Held keys.now.list.now keys.now.symbols classes class at words.old tallies.old }
    ensures { HeldIf keys.now.list.now keys.now.symbols classes class at result
        words.old words.new tallies.old tallies.new }
{
    let q = gather(keys, classes, class, table, firsts, counts)?;
    append(firsts, counts, q, at, words, tallies);
    Some(q)
}

// The same with arrays in a frame of their own.
#[inline(never)]
fn one_class(
    keys: &Keys,
    classes: usize,
    class: usize,
    at: usize,
    words: &mut [u32],
    tallies: &mut [u32],
) -> Option<usize>
    requires classes_bound { (1 < classes) × (classes ≤ 1048576) }
    requires room { Room keys.now.list.now keys.now.symbols words.old tallies.old
        × Held keys.now.list.now keys.now.symbols classes class at words.old tallies.old }
    ensures { HeldIf keys.now.list.now keys.now.symbols classes class at result
        words.old words.new tallies.old tallies.new }
{
    let mut table = [0u32; MIDDLE_SLOTS];
    let mut firsts = [0u32; MIDDLE_ROOM];
    let mut counts = [0u32; MIDDLE_ROOM];
    join_class(
        keys,
        classes,
        class,
        at,
        words,
        tallies,
        &mut table,
        &mut firsts,
        &mut counts,
    )
}

// The pairs of all classes.
fn by_class(keys: &Keys, classes: usize, words: &mut [u32], tallies: &mut [u32]) -> Option<usize>
    requires classes_bound { (1 < classes) × (classes ≤ 1048576) }
    requires room { Room keys.now.list.now keys.now.symbols words.old tallies.old }
    ensures { PairedIf keys.now.list.now keys.now.symbols result
        words.old words.new tallies.old tallies.new }
{
    let mut p: usize = 0;
    for k in 0..classes {
        p += one_class(keys, classes, k, p, words, tallies)?;
    }
    if p <= limit_of(keys.symbols) {
        return None;
    }
    Some(p)
}

// The pairs, with as many classes as it takes. There are none where even the most classes have too many keys, which
// only keys chosen for it do.
pub fn by_classes(keys: &Keys, words: &mut [u32], tallies: &mut [u32]) -> Option<usize>
    requires room { Room keys.now.list.now keys.now.symbols words.old tallies.old }
    ensures { PairedIf keys.now.list.now keys.now.symbols result
        words.old words.new tallies.old tallies.new }
{
    let mut classes: usize = 2;
    while classes <= MOST_CLASSES {
        if let Some(p) = by_class(keys, classes, words, tallies) {
            return Some(p);
        }
        classes *= 2;
    }
    None
}

// How many keys a class has, if there is room for them in arrays of these sizes, which are in a frame of their own.
#[inline(never)]
pub(crate) fn count_in<const SLOTS: usize, const ROOM: usize>(
    keys: &Keys,
    classes: usize,
    class: usize,
) -> Option<usize>
    requires classes_bound { classes ≤ 1048576 }
    requires sizes { (0 < SLOTS) × (SLOTS ≤ 1048576) × (ROOM ≤ 1048576) }
    ensures { ClassIf keys.now.list.now keys.now.symbols classes class result }
{
    let mut table = [0u32; SLOTS];
    let mut firsts = [0u32; ROOM];
    let mut counts = [0u32; ROOM];
    gather(keys, classes, class, &mut table, &mut firsts, &mut counts)
}

fn count_by_class(keys: &Keys, classes: usize) -> Option<usize>
    requires { (1 < classes) × (classes ≤ 1048576) }
    ensures { NumberIf keys.now.list.now keys.now.symbols result }
{
    let mut p: usize = 0;
    for k in 0..classes {
        p += count_in::<MIDDLE_SLOTS, MIDDLE_ROOM>(keys, classes, k)?;
    }
    Some(p)
}

pub(crate) fn count_by_classes(keys: &Keys) -> Option<usize>
    ensures { NumberIf keys.now.list.now keys.now.symbols result }
{
    let mut classes: usize = 2;
    while classes <= MOST_CLASSES {
        if let Some(p) = count_by_class(keys, classes) {
            return Some(p);
        }
        classes *= 2;
    }
    None
}
