// How many distinct keys a list has, with nothing stored.
ghost use Rattle.std.specs.Prelude.{◌≡◌, ◌≤◌, ◌<◌, length};
ghost use Rattle.format.specs.MakeTables.{key_count, keys_of};
ghost use Rattle.distinct.specs.Count.{same_key, is_met, fresh, ample};

use crate::classes::{count_by_classes, count_in};
use crate::sizes::{
    MIDDLE_MOST, MIDDLE_ROOM, MIDDLE_SLOTS, SMALL_ROOM, SMALL_SLOTS, WIDE_ROOM, WIDE_SLOTS,
};
use keys::key::{Keys, place_in};

fn is_same(keys: &Keys, u: usize, v: usize) -> bool
    requires u_bound { u < key_count keys.now.list.now keys.now.symbols }
    requires v_bound { v < key_count keys.now.list.now keys.now.symbols }
    ensures { result ≡ same_key keys.now.list.now keys.now.symbols u v }
{
    keys.is_live(u) && keys.alike(u, v)
}

// Whether a key before v is the same.
fn is_met(keys: &Keys, v: usize) -> bool
    requires { v < key_count keys.now.list.now keys.now.symbols }
    ensures { result ≡ is_met keys.now.list.now keys.now.symbols v }
{
    for u in 0..v {
        if is_same(keys, u, v) {
            return true;
        }
    }
    false
}

// Whether v is a key and the first of its kind.
fn is_fresh(keys: &Keys, v: usize) -> bool
    requires { v < key_count keys.now.list.now keys.now.symbols }
    ensures { result ≡ fresh keys.now.list.now keys.now.symbols v }
{
    keys.is_live(v) && !is_met(keys, v)
}

// The number, for any keys: slow.
fn count_slowly(keys: &Keys) -> usize
    ensures { result ≡ length (keys_of keys.now.list.now keys.now.symbols) }
{
    let mut p: usize = 0;
    for v in 0..keys.count() {
        if is_fresh(keys, v) {
            p += 1;
        }
    }
    p
}

// Small arrays first, as for the table itself.
fn counts(keys: &Keys) -> usize
    ensures { result ≡ length (keys_of keys.now.list.now keys.now.symbols) }
{
    if let Some(p) = count_in::<SMALL_SLOTS, SMALL_ROOM>(keys, 1, 0) {
        return p;
    }
    if keys.count() <= MIDDLE_MOST {
        if let Some(p) = count_in::<MIDDLE_SLOTS, MIDDLE_ROOM>(keys, 1, 0) {
            return p;
        }
    }
    if let Some(p) = count_in::<WIDE_SLOTS, WIDE_ROOM>(keys, 1, 0) {
        return p;
    }
    if let Some(p) = count_by_classes(keys) {
        return p;
    }
    count_slowly(keys)
}

// Whether runs of so many words and counts have room for p keys and more words.
fn is_ample(symbols: bool, p: usize, more: usize, words: usize, tallies: usize) -> bool
    requires { (p < 4294967295) × (more < 4294967295) }
    ensures { result ≡ ample symbols p more words tallies }
{
    place_in(symbols, p) + more <= words && p <= tallies
}

// The same for the keys of a list. Where there is room for as many as there can be, they are not counted.
pub fn has_room(keys: &Keys, more: usize, words: usize, tallies: usize) -> bool
    requires { more < 4294967295 }
    ensures { result ≡ ample keys.now.symbols (length (keys_of keys.now.list.now keys.now.symbols)) more words tallies }
{
    is_ample(keys.symbols, keys.count(), more, words, tallies)
        || is_ample(keys.symbols, counts(keys), more, words, tallies)
}
