// What is asked before the work words: the buffer, the tree number, the leaf.
ghost use Rattle.std.specs.Prelude.{◌≡◌};
ghost use Rattle.format.specs.Replace.{replace_verdict};
ghost use Rattle.tree.specs.Refusal.{verdict_answer};

use crate::change::Change;
use builder::range::words_fit;
use checker::check::{check_buffer, refused};
use pack::row;
use tree::refusal::Refusal;
use unpack::leaf::is_leaf;

// All that is refused but row 6.
pub(crate) fn replace_verdict(change: &Change) -> Result<(), Refusal>
    ensures { result ≡ verdict_answer
        (replace_verdict change.now.b.now change.now.trees change.now.parts.now change.now.symbols.now
        change.now.number change.now.leaf.now) }
{
    check_buffer(change.b, change.trees, change.parts, change.symbols)?;
    if !is_leaf(
        change.b,
        change.trees,
        change.parts,
        change.symbols,
        change.number,
    ) {
        return refused(row::STATE, change.number);
    }
    if !words_fit(change.leaf) {
        return refused(row::FIELD, change.number);
    }
    Ok(())
}
