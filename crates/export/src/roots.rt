// Root rewriting.
ghost use Rattle.std.specs.Prelude.{◌≡◌, ◌+◌, ◌≤◌, length};
ghost use Rattle.format.specs.Width.{span_size};
ghost use Rattle.export.specs.Roots.{span_in, KindReplied, SpansReplied};

use crate::replies::reply;
use root::{set_top_subtree_delimiter_kind, set_top_subtree_delimiter_span};
use tree::types::Span;
use width::{PART_WORDS, SPAN_WORDS};

pub(crate) const TWO_SPANS: usize = 2 * SPAN_WORDS;

#[unsafe(no_mangle)]
pub extern "C" fn tt_set_kind(
    b: &mut [u8],
    trees: u32,
    parts: &[u32],
    symbols: &[u32],
    kind: u32,
) -> u64
    ensures { KindReplied b.old trees parts.now symbols.now kind
        result b.new }
{
    reply(set_top_subtree_delimiter_kind(b, trees, parts, symbols, kind))
}

// The span whose words begin at a place.
pub(crate) fn span_in(words: &[u32], at: usize) -> Span
    requires { at + span_size ≤ length words.now }
    ensures { result ≡ span_in words.now at }
{
    Span {
        file: words[at],
        ast_id: words[at + 1],
        context: words[at + 2],
        start: words[at + PART_WORDS],
        len: words[at + PART_WORDS + 1],
    }
}

// The words of the opening span, then those of the closing one.
#[unsafe(no_mangle)]
pub extern "C" fn tt_set_spans(
    b: &mut [u8],
    trees: u32,
    parts: &mut [u32],
    symbols: &[u32],
    spans: &[u32; TWO_SPANS],
) -> u64
    ensures { SpansReplied b.old trees parts.old symbols.now
        (span_in spans.now 0) (span_in spans.now span_size) result b.new parts.new }
{
    let opening = span_in(spans, 0);
    let closing = span_in(spans, SPAN_WORDS);
    let verdict = set_top_subtree_delimiter_span(b, trees, parts, symbols, opening, closing);
    reply(verdict)
}
