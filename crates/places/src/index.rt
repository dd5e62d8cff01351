// A hash index of keys: of those that are alike the first is entered.
ghost use Rattle.std.specs.Prelude.{◌≡◌, ◌+◌, ◌<◌, ◌≤◌, length, replicate};
ghost use Rattle.format.specs.Writer.{find};
ghost use Rattle.places.specs.Key.{part_of, key_count, is_key};
ghost use Rattle.places.specs.Keys.{keys_of};
ghost use Rattle.places.specs.Index.{slot_of, probe_for, portion, Held, Loaded, Within, Finds};

use crate::key::Key;
use crate::keys::Keys;
use slots::hash::mix;
use slots::probe::{Looked, next_slot};

// The first `len` of some keys, entered in slots.
#[derive(Clone, Copy)]
pub(crate) struct Index<'a> {
    pub keys: Keys<'a>,
    pub len: usize,
    pub slots: &'a [u32],
    ghost loaded: { Loaded keys.words.now keys.layout keys.base len slots.now },
}

// The slot where a key is looked for first.
#[tactic(auto, unfolding(crate::specs::Index::slot_of))]
fn slot_of(k: Key, slots: usize) -> usize
    requires { (0 < slots) × (slots ≤ 1048576) }
    ensures { (result ≡ slot_of (part_of k) slots) × (result < slots) }
{
    mix(k.file, k.ast_id, k.context, slots)
}

// Looks for a key from a slot on.
#[inline(always)]
#[tactic(auto, using(crate::proofs::IndexReturns::look_cases))]
fn look(keys: Keys, slots: &[u32], k: Key, start: usize) -> Looked
    requires start_in_bounds { start < length slots.now }
    requires within { Within keys.words.now keys.layout keys.base slots.now }
    ensures { result ≡ probe_for (keys_of keys.entry) (part_of k) slots.now start (length slots.now) }
{
    let mut s = start;
    for _ in 0..slots.len() {
        let e = slots[s] as usize;
        if e == 0 {
            return Looked::Empty(s);
        }
        if keys.at(e - 1) == k {
            return Looked::Found(e - 1);
        }
        s = next_slot(s, slots.len());
    }
    Looked::Full
}

impl<'a> Index<'a> {
    // The first place of a key.
    #[tactic(auto, using(crate::proofs::IndexReturns::find_cases))]
    pub(crate) fn find(self, k: Key) -> Option<usize>
        ensures { Finds (keys_of self.entry.keys) self.entry.len (part_of k) result }
    {
        let start = slot_of(k, self.slots.len());
        match look(self.keys, self.slots, k, start) {
            Looked::Found(j) => Some(j),
            _ => None,
        }
    }

    // The same, or the number of keys where it is not among them.
    #[tactic(auto, using(crate::proofs::IndexReturns::place_cases))]
    pub(crate) fn place(self, k: Key) -> u32
        ensures { result ≡ find (is_key (keys_of self.entry.keys) (part_of k)) self.entry.len 0 }
    {
        match self.find(k) {
            Some(j) => j as u32,
            None => self.len as u32,
        }
    }
}

// Enters key g.
#[inline(always)]
#[tactic(auto, using(crate::proofs::IndexReturns::enter_cases))]
fn enter(keys: Keys, slots: &mut [u32], g: usize)
    requires g_bound { (keys.base + g < key_count keys.words.now keys.layout) × (g < 2097152) }
    requires g_in_bounds { (g < length slots.old) × (length slots.old ≤ 1048576) }
    requires held { Held (keys_of keys) g slots.old }
    ensures { Held (keys_of keys.entry) (g + 1) slots.new }
{
    let k = keys.at(g);
    let start = slot_of(k, slots.len());
    if let Looked::Empty(s) = look(keys, slots, k, start) {
        slots[s] = (g + 1) as u32;
    }
}

// The index of the first g keys. Compiled into its callers, which know the layout: so it is not asked for at each key.
#[inline(always)]
#[tactic(auto, using(crate::proofs::IndexReturns::load_cases))]
pub(crate) fn load(keys: Keys, slots: &mut [u32], g: usize)
    requires g_bound { (keys.base + g ≤ key_count keys.words.now keys.layout) × (g ≤ 2097152) }
    requires g_in_bounds { (g ≤ length slots.old) × (0 < length slots.old) × (length slots.old ≤ 1048576) }
    ensures { Loaded keys.entry.words.now keys.entry.layout keys.entry.base g slots.new }
{
    slots.fill(0);
    for i in 0..g {
        enter(keys, slots, i);
    }
}

// How many keys are entered at a time: at most half of the slots are taken, so that a search is short.
pub(crate) fn portion_of(slots: usize) -> usize
    requires { (0 < slots) × (slots ≤ 1048576) }
    ensures { (result ≡ portion slots) × (0 < result) × (result ≤ slots) }
{
    (slots + 1) / 2
}
