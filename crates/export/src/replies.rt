// Replies in one number.
ghost use Rattle.std.specs.Prelude.{◌≡◌, ℕ};
ghost use Rattle.export.specs.Replies.{refused_code, refusal_code, reply_of};

use pack::row::Row;
use tree::refusal::Refusal;

// Refusal 6 at tree 0.
pub const TOO_SHORT: u64 = 9223372062624579584;

// The number that stands for a value.
pub(crate) trait Code {
    ghost code: { Self → ℕ };

    fn code(self) -> u64
        ensures { result ≡ code self };
}

impl Code for () {
    ghost code = { λ _. 0 };

    fn code(self) -> u64 {
        0
    }
}

impl Code for usize {
    ghost code = { λ n. n };

    fn code(self) -> u64 {
        self as u64
    }
}

// A refusal without a tree.
impl Code for Row {
    ghost code = { refusal_code };

    fn code(self) -> u64 {
        9223372036854775808 + (self as u64)
    }
}

impl Code for Refusal {
    ghost code = { refused_code };

    fn code(self) -> u64 {
        9223372036854775808 + 4294967296 * ((self.number % 2147483648) as u64) + (self.tree as u64)
    }
}

pub(crate) fn reply<T: Code, E: Code>(answer: Result<T, E>) -> u64
    ensures { result ≡ reply_of T.code E.code answer }
{
    match answer {
        Ok(value) => value.code(),
        Err(refusal) => refusal.code(),
    }
}
