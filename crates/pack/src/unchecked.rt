// Bytes and little-endian numbers at a place that the caller has found to be there.
ghost use Rattle.std.specs.Prelude.{◌≡◌, [], ◌∷◌, ◌+◌, ◌*◌, ◌≤◌, ◌<◌, length};
ghost use Rattle.format.specs.Word.{byte_at, half_at, word_at, half_bytes, word_bytes, put};

pub fn byte_at(b: &[u8], at: usize) -> u32
    requires { at + 1 ≤ length b.now }
    ensures { (result ≡ byte_at b.now at) × (result < 256) }
{
    u32::from(b[at])
}

#[tactic(auto, unfolding(format::specs::Word::half_at))]
pub fn half_at(b: &[u8], at: usize) -> u32
    requires { at + 2 ≤ length b.now }
    ensures { (result ≡ half_at b.now at) × (result < 65536) }
{
    u32::from(u16::from_le_bytes([b[at], b[at + 1]]))
}

#[tactic(auto, unfolding(format::specs::Word::word_at))]
pub fn word_at(b: &[u8], at: usize) -> u32
    requires { at + 4 ≤ length b.now }
    ensures { result ≡ word_at b.now at }
{
    u32::from_le_bytes([b[at], b[at + 1], b[at + 2], b[at + 3]])
}

#[tactic(auto, using(crate::proofs::Store::store_1))]
pub fn put_byte(out: &mut [u8], at: usize, x: u32)
    requires { (at + 1 ≤ length out.old) × (x < 256) }
    ensures { out.new ≡ put out.old at (x ∷ []) }
{
    out[at] = x as u8;
}

pub fn put_half(out: &mut [u8], at: usize, w: u32)
    requires { (at + 2 ≤ length out.old) × (w < 65536) }
    ensures { out.new ≡ put out.old at (half_bytes w) }
{
    out[at..at + 2].copy_from_slice(&(w as u16).to_le_bytes());
}

pub fn put_word(out: &mut [u8], at: usize, w: u32)
    requires { at + 4 ≤ length out.old }
    ensures { out.new ≡ put out.old at (word_bytes w) }
{
    out[at..at + 4].copy_from_slice(&w.to_le_bytes());
}
