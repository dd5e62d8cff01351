// Spans packed in one call. A library of its own, as `measure_walk` is.
#![tactic(auto)]

ghost use Rattle.reference.specs.Lists.{AllPacked};

use reference::lists::{ByRests, pack_all};

// The bytes written, or 2^63 and a refusal's number.
#[unsafe(no_mangle)]
pub extern "C" fn tt_pack_all(
    out: &mut [u8],
    at: usize,
    spans: &[u32],
    extra: u32,
    heavy: bool,
) -> u64
    ensures { AllPacked out.old at spans.now extra heavy result out.new }
{
    pack_all::<ByRests>(out, at, spans, extra, heavy)
}
