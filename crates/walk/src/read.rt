// One tree of a buffer.
ghost use Rattle.std.specs.Prelude.{◌≡◌, MatchResult};
ghost use Rattle.format.specs.Reader.{got, bad};
ghost use Rattle.tree.specs.Tables.{mode_in};
ghost use Rattle.decode.specs.Decode.{read_in};

use crate::buffer::Buffer;
use decode::decode::{TreeAt, decode_in};
use tree::refusal::Refusal;

// Tree n, which begins at a place. A refusal names it.
#[tactic(auto, using(crate::proofs::BufferReturns::read_cases))]
pub fn read_tree(buffer: &Buffer, n: u32, at: usize) -> Result<TreeAt, Refusal>
    ensures { MatchResult result
        (λ y. read_in buffer.now.bytes.now (mode_in buffer.now.tables) n at ≡ got y.tree y.next y.children.0)
        (λ r. (read_in buffer.now.bytes.now (mode_in buffer.now.tables) n at ≡ bad r.number) × (r.tree ≡ n)) }
{
    match decode_in(buffer.bytes, &buffer.tables, n, at) {
        Ok(here) => Ok(here),
        Err(number) => Err(Refusal { number, tree: n }),
    }
}
