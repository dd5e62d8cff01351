// Stores without a test of room, which whoever calls has made.
ghost use Rattle.std.specs.Prelude.{◌≡◌, ◌+◌, ◌≤◌, length};
ghost use Rattle.format.specs.Word.{put};

// By a loop: the library's copy between two lent runs would have every archive ask for `memmove`.
#[tactic(auto, using(crate::proofs::StoreReturns::put_cases))]
pub fn put_words(list: &mut [u32], at: usize, words: &[u32])
    requires { at + length words.now ≤ length list.old }
    ensures { list.new ≡ put list.old at words.now }
{
    for i in 0..words.len() {
        list[at + i] = words[i];
    }
}
