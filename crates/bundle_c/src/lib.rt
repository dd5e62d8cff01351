// The check of a bundle for a Rust or C host.
#![tactic(auto)]

ghost use Rattle.std.specs.Prelude.{◌≡◌};
ghost use Rattle.format.specs.Bundle.{bundle_check, number_of};

use bundle::check::check_bundle;

// The check's number, 0 for passed.
#[tactic(auto, unfolding(tree::specs::Refusal::verdict_answer))]
#[unsafe(no_mangle)]
pub extern "C" fn tt_check_bundle(b: &[u8]) -> u32
    ensures { result ≡ number_of (bundle_check b.now) }
{
    match check_bundle(b) {
        Ok(()) => 0,
        Err(refusal) => refusal.number,
    }
}
