// Stored buffers.
ghost use Rattle.std.specs.Prelude.{◌≡◌};
ghost use Rattle.format.specs.Check.{check as checked};
ghost use Rattle.format.specs.Buffer.{raw_shape, size_reader, buffer_check};
ghost use Rattle.tree.specs.Refusal.{verdict_answer};
ghost use Rattle.export.specs.Replies.{verdict_code};

use crate::replies::reply;
use checker::check::{check, check_buffer};

// The check by the numbers of parts and symbols.
#[unsafe(no_mangle)]
pub extern "C" fn tt_check(b: &[u8], trees: u32, parts: usize, symbols: usize) -> u64
    ensures { result ≡ verdict_code (verdict_answer
        (checked raw_shape (size_reader b.now trees parts symbols))) }
{
    reply(check(b, trees, parts, symbols))
}

// The check with the tables themselves.
#[unsafe(no_mangle)]
pub extern "C" fn tt_check_buffer(b: &[u8], trees: u32, parts: &[u32], symbols: &[u32]) -> u64
    ensures { result ≡ verdict_code (verdict_answer
        (buffer_check b.now trees parts.now symbols.now)) }
{
    reply(check_buffer(b, trees, parts, symbols))
}
