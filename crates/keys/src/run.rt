// Runs of words: a read or a store past the end is none.
ghost use Rattle.std.specs.Prelude.{◌≡◌, ◌+◌, ◌<◌, get_or, set};

// Element i, or 0.
pub fn get_at(run: &[u32], i: usize) -> u32
    ensures { result ≡ get_or run.now i 0 }
{
    if i < run.len() { run[i] } else { 0 }
}

// Stores x where there is such a place.
pub fn set_at(run: &mut [u32], i: usize, x: u32)
    ensures { run.new ≡ set run.old i x }
{
    if i < run.len() {
        run[i] = x;
    }
}

// One more at i, where there is such a place.
pub fn raise(run: &mut [u32], i: usize)
    requires { get_or run.old i 0 < 4294967295 }
    ensures { run.new ≡ set run.old i (get_or run.old i 0 + 1) }
{
    if i < run.len() {
        run[i] += 1;
    }
}
