// The distinct keys of a list without a hash table: numbers and counts are gathered in the lent runs, each key is
// looked for among all before it. Slow, but right for any keys.
ghost use Rattle.std.specs.Prelude.{◌≡◌, true, ◌+◌, ◌<◌};
ghost use Rattle.format.specs.MakeTables.{key_count, live_at, alike_at};
ghost use Rattle.distinct.specs.Gathered.{Under, Gathered};
ghost use Rattle.keys.specs.Runs.{Room};
ghost use Rattle.distinct.specs.Pairs.{Sought, Scanned};

use keys::key::Keys;
use keys::run::{get_at, raise, set_at};

// The first of p numbers that is the same key as v.
fn find(keys: &Keys, v: usize, p: usize, words: &[u32]) -> Option<usize>
    requires v_bound { v < key_count keys.now.list.now keys.now.symbols }
    requires under { Under p (key_count keys.now.list.now keys.now.symbols) words.now }
    ensures { Sought keys.now.list.now keys.now.symbols v p words.now result }
{
    for e in 0..p {
        if keys.alike(get_at(words, e) as usize, v) {
            return Some(e);
        }
    }
    None
}

// Key v, which is one, joins the p keys before it or is counted.
fn scan_key(keys: &Keys, v: usize, p: usize, words: &mut [u32], tallies: &mut [u32]) -> usize
    requires v_bound { (v < key_count keys.now.list.now keys.now.symbols) × (p < 4294967295) }
    requires v_value { live_at keys.now.list.now keys.now.symbols v ≡ true }
    requires gathered { Gathered (live_at keys.now.list.now keys.now.symbols) (alike_at keys.now.list.now keys.now.symbols) v p words.old tallies.old }
    requires room { Room keys.now.list.now keys.now.symbols words.old tallies.old }
    ensures { Scanned keys.now.list.now keys.now.symbols (v + 1) result
        words.old words.new tallies.old tallies.new }
{
    match find(keys, v, p, words) {
        Some(e) => {
            raise(tallies, e);
            p
        }
        None => {
            set_at(words, p, v as u32);
            set_at(tallies, p, 1);
            p + 1
        }
    }
}

fn scan_one(keys: &Keys, v: usize, p: usize, words: &mut [u32], tallies: &mut [u32]) -> usize
    requires v_bound { (v < key_count keys.now.list.now keys.now.symbols) × (p < 4294967295) }
    requires gathered { Gathered (live_at keys.now.list.now keys.now.symbols) (alike_at keys.now.list.now keys.now.symbols) v p words.old tallies.old }
    requires room { Room keys.now.list.now keys.now.symbols words.old tallies.old }
    ensures { Scanned keys.now.list.now keys.now.symbols (v + 1) result
        words.old words.new tallies.old tallies.new }
{
    if keys.is_live(v) {
        return scan_key(keys, v, p, words, tallies);
    }
    p
}

// The answer is how many keys there are.
pub fn scan(keys: &Keys, words: &mut [u32], tallies: &mut [u32]) -> usize
    requires room { Room keys.now.list.now keys.now.symbols words.old tallies.old }
    ensures { Scanned keys.now.list.now keys.now.symbols (key_count keys.now.list.now keys.now.symbols) result
        words.old words.new tallies.old tallies.new }
{
    let mut p: usize = 0;
    for v in 0..keys.count() {
        p = scan_one(keys, v, p, words, tallies);
    }
    p
}
