// Numbers and counts that stand in the lent runs become the table: they are put in order, then words replace numbers.
ghost use Rattle.std.specs.Prelude.{◌≡◌, ◌≤◌, ◌<◌, length};
ghost use Rattle.format.specs.MakeTables.{key_count, table_words};
ghost use Rattle.format.specs.Word.{put};
ghost use Rattle.keys.specs.Runs.{Room, Behind};
ghost use Rattle.entries.specs.Runs.{Made};
ghost use Rattle.distinct.specs.Pairs.{Paired};
ghost use Rattle.entries.specs.Settle.{Settled};

use keys::key::{Keys, limit_of};
use keys::run::get_at;
use order::sort::sort;

// The pairs are put in the table's order.
fn put_in_order(keys: &Keys, p: usize, words: &mut [u32], tallies: &mut [u32])
    requires p_bound { p < 4294967295 }
    requires p_in_bounds { (p ≤ length words.old) × (p ≤ length tallies.old) }
    requires paired { Paired keys.now.list.now keys.now.symbols p words.old tallies.old }
    ensures settled { Settled keys.now.list.now keys.now.symbols p words.new tallies.new }
    ensures behind { Behind p words.old words.new
        × Behind p tallies.old tallies.new }
{
    if p <= limit_of(keys.symbols) {
        return;
    }
    sort(words, tallies, p);
}

// The numbers give way to the words, the last one first: no number is overwritten before its turn.
fn expand(keys: &Keys, p: usize, words: &mut [u32], tallies: &[u32])
    requires p_bound { p < 4294967295 }
    requires settled { Settled keys.now.list.now keys.now.symbols p words.old tallies.now
        × Room keys.now.list.now keys.now.symbols words.old tallies.now }
    ensures { words.new ≡ put words.old 0 (table_words keys.now.list.now keys.now.symbols) }
{
    for k in (0..p).rev() {
        let v = get_at(words, k) as usize;
        keys.put(v, words, k);
    }
}

pub(crate) fn settle(keys: &Keys, p: usize, words: &mut [u32], tallies: &mut [u32])
    requires p_bound { p < 4294967295 }
    requires paired { Paired keys.now.list.now keys.now.symbols p words.old tallies.old
        × Room keys.now.list.now keys.now.symbols words.old tallies.old }
    ensures { Made keys.now.list.now keys.now.symbols p
        words.old words.new tallies.old tallies.new }
{
    put_in_order(keys, p, words, tallies);
    expand(keys, p, words, tallies);
}
