// The check of a bundle.
ghost use Rattle.std.specs.Prelude.{◌≡◌};
ghost use Rattle.format.specs.Bundle.{bundle_check};
ghost use Rattle.tree.specs.Refusal.{verdict_answer};

use crate::read::read_bundle;
use checker::check::{check, refused};
use pack::row;
use tree::refusal::Refusal;

pub fn check_bundle(b: &[u8]) -> Result<(), Refusal>
    ensures { result ≡ verdict_answer (bundle_check b.now) }
{
    let Some(contents) = read_bundle(b) else {
        return refused(row::SIZE, 0);
    };
    check(
        &b[contents.start..],
        contents.trees,
        contents.parts,
        contents.symbols,
    )
}
