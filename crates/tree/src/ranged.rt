// The source's kinds of numbers that row 2 has passed: a match without a refusal, which would be tried again in vain.
#![tactic(auto, unfolding(crate::specs::Types::spacing_of, crate::specs::Types::is_raw_of, crate::specs::Types::delimiter_of, crate::specs::Types::lit_kind_of))]

ghost use Rattle.std.specs.Prelude.{◌≡◌, ◌≤◌};
ghost use Rattle.tree.specs.Types.{spacing_of, is_raw_of, delimiter_of, lit_kind_of};

use crate::types::{DelimiterKind, IdentIsRaw, LitKind, Spacing};

pub fn spacing_of(x: u32) -> Spacing
    requires { x ≤ 2 }
    ensures { result ≡ spacing_of x }
{
    match x {
        0 => Spacing::Alone,
        1 => Spacing::Joint,
        _ => Spacing::JointHidden,
    }
}

pub fn is_raw_of(x: u32) -> IdentIsRaw
    requires { x ≤ 1 }
    ensures { result ≡ is_raw_of x }
{
    match x {
        0 => IdentIsRaw::No,
        _ => IdentIsRaw::Yes,
    }
}

pub fn delimiter_of(d: u32) -> DelimiterKind
    requires { d ≤ 3 }
    ensures { result ≡ delimiter_of d }
{
    match d {
        0 => DelimiterKind::Parenthesis,
        1 => DelimiterKind::Brace,
        2 => DelimiterKind::Bracket,
        _ => DelimiterKind::Invisible,
    }
}

pub fn lit_kind_of(kind: u32, raw_count: u32) -> LitKind
    requires { kind ≤ 10 }
    ensures { result ≡ lit_kind_of kind raw_count }
{
    match kind {
        0 => LitKind::Byte,
        1 => LitKind::Char,
        2 => LitKind::Integer,
        3 => LitKind::Float,
        4 => LitKind::Str,
        5 => LitKind::StrRaw(raw_count),
        6 => LitKind::ByteStr,
        7 => LitKind::ByteStrRaw(raw_count),
        8 => LitKind::CStr,
        9 => LitKind::CStrRaw(raw_count),
        _ => LitKind::Err,
    }
}
