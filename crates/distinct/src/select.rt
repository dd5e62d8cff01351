// The numbers of a stretch of trees that are keys. Every number is stored, and the next one over it if it is no key:
// there is no branch on the sort of a tree.
ghost use Rattle.std.specs.Prelude.{◌≡◌, false, ◌+◌, ◌*◌, ◌≤◌, ◌<◌, length};
ghost use Rattle.format.specs.MakeTables.{key_count};
ghost use Rattle.keys.specs.Keys.{live_in};
ghost use Rattle.distinct.specs.Select.{number_of, Selected};

use keys::key::Keys;

// The first number of the t-th tree below the root.
pub(crate) fn number(symbols: bool, t: usize) -> usize
    requires { t < 4294967295 }
    ensures { result ≡ number_of symbols t }
{
    if symbols {
        return t;
    }
    2 * t
}

// Number v joins the m chosen from `from` on, if it is a key. The answer is how many they are.
fn choose(
    keys: &Keys,
    classes: usize,
    class: usize,
    from: usize,
    v: usize,
    m: usize,
    chosen: &mut [u32],
) -> usize
    requires v_bound { (v < key_count keys.now.list.now keys.now.symbols) × (classes ≤ 1048576) }
    requires v_room { v < from + length chosen.old }
    requires selected { Selected (live_in keys.now.list.now keys.now.symbols classes class) from v m chosen.old }
    ensures { Selected (live_in keys.now.list.now keys.now.symbols classes class) from (v + 1) result
        chosen.new }
{
    chosen[m] = v as u32;
    if keys.is_live_in(classes, class, v) {
        m + 1
    } else {
        m
    }
}

fn select_each(
    keys: &Keys,
    classes: usize,
    class: usize,
    from: usize,
    to: usize,
    chosen: &mut [u32],
) -> usize
    requires from_le_to { (from ≤ to) × (to ≤ key_count keys.now.list.now keys.now.symbols) × (classes ≤ 1048576) }
    requires to_bound { to ≤ from + length chosen.old }
    ensures { Selected (live_in keys.now.list.now keys.now.symbols classes class) from to result chosen.new }
{
    let mut m: usize = 0;
    for v in from..to {
        m = choose(keys, classes, class, from, v, m, chosen);
    }
    m
}

// The parts of a tree below the root: the opening one always, the closing one of a subtree.
fn choose_two(keys: &Keys, from: usize, t: usize, m: usize, chosen: &mut [u32]) -> usize
    requires t_bound { 2 * t + 1 < key_count keys.now.list.now keys.now.symbols }
    requires t_room { 2 * t + 1 < from + length chosen.old }
    requires selected { Selected (live_in keys.now.list.now keys.now.symbols 1 0) from (2 * t) m chosen.old }
    ensures { Selected (live_in keys.now.list.now keys.now.symbols 1 0) from (2 * (t + 1)) result chosen.new }
{
    let v = 2 * t;
    let k = choose(keys, 1, 0, from, v, m, chosen);
    choose(keys, 1, 0, from, v + 1, k, chosen)
}

fn select_parts(keys: &Keys, t: usize, end: usize, chosen: &mut [u32]) -> usize
    requires t_le_end { (t ≤ end) × (2 * end ≤ key_count keys.now.list.now keys.now.symbols) }
    requires end_room { 2 * end ≤ 2 * t + length chosen.old }
    ensures { Selected (live_in keys.now.list.now keys.now.symbols 1 0) (2 * t) (2 * end) result chosen.new }
{
    let from = 2 * t;
    let mut m: usize = 0;
    for i in t..end {
        m = choose_two(keys, from, i, m, chosen);
    }
    m
}

// The keys of the trees from the t-th to before another. The kind of the keys is a literal where it is asked of each.
pub(crate) fn select(
    keys: &Keys,
    classes: usize,
    class: usize,
    t: usize,
    end: usize,
    chosen: &mut [u32],
) -> usize
    requires t_le_end { (t ≤ end) × (number_of keys.now.symbols end ≤ key_count keys.now.list.now keys.now.symbols) }
    requires end_room { (2 * end ≤ 2 * t + length chosen.old) × (classes ≤ 1048576) }
    ensures { Selected (live_in keys.now.list.now keys.now.symbols classes class)
        (number_of keys.now.symbols t) (number_of keys.now.symbols end) result chosen.new }
{
    let list = keys.list;
    if 1 < classes {
        let from = number(keys.symbols, t);
        let to = number(keys.symbols, end);
        return select_each(keys, classes, class, from, to, chosen);
    }
    if keys.symbols {
        let symbols = Keys {
            list,
            symbols: true,
        };
        return select_each(&symbols, 1, 0, t, end, chosen);
    }
    let parts = Keys {
        list,
        symbols: false,
    };
    select_parts(&parts, t, end, chosen)
}
