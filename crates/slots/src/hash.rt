// A hash of three words, scaled to a number of slots or of classes.
ghost use Rattle.std.specs.Prelude.{◌≡◌, ◌*◌, ◌/◌, ◌≤◌, ◌<◌};
ghost use Rattle.slots.specs.Hash.{mix_of};

const WORD_VALUES: u64 = 4294967296;

// h of 2^32, taken of size.
fn scaled(h: u64, size: usize) -> usize
    requires { (0 < size) × (size ≤ 1048576) × (h < 4294967296) }
    ensures { (result ≡ h * size / 4294967296) × (result < size) }
{
    (h as usize) * size / WORD_VALUES as usize
}

#[tactic(auto, unfolding(crate::specs::Hash::mix_of))]
pub fn mix(a: u32, b: u32, c: u32, size: usize) -> usize
    requires { (0 < size) × (size ≤ 1048576) }
    ensures { (result ≡ mix_of a b c size) × (result < size) }
{
    let sum = u64::from(a) * 1013904223 + u64::from(b) * 668265263 + u64::from(c) * 374761393;
    scaled(sum % WORD_VALUES, size)
}
