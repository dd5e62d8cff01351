// The search from slot to slot, round the end. Its loop stands with the keys that are compared.
ghost use Rattle.std.specs.Prelude.{◌≡◌, ◌<◌};
ghost use Rattle.slots.specs.Probe.{next_slot};

// What a search ends with.
#[derive(Clone, Copy, PartialEq, Eq, Debug)]
pub enum Looked {
    // A key's number.
    Found(usize),
    // A slot.
    Empty(usize),
    Full,
}

pub fn next_slot(s: usize, slots: usize) -> usize
    requires { s < slots }
    ensures { (result ≡ next_slot slots s) × (result < slots) }
{
    if s + 1 < slots { s + 1 } else { 0 }
}
