// A row that is broken, as a refusal.
ghost use Rattle.std.specs.Prelude.{◌≡◌};
ghost use Rattle.format.specs.Verdict.{refusal};
ghost use Rattle.tree.specs.Refusal.{report_answer};

use pack::row::Row;
use tree::refusal::Refusal;

// A row that names no tree but the root.
pub(crate) fn refuse(number: Row) -> Result<usize, Refusal>
    ensures { result ≡ report_answer (refusal number 0) }
{
    Err(Refusal { number, tree: 0 })
}
