// The numbers of the list words as the source's kinds, or row 2 where they are none, and back.
#![tactic(auto, unfolding(crate::specs::Types::spacing_of, crate::specs::Types::is_raw_of, crate::specs::Types::delimiter_of, crate::specs::Types::lit_kind_of, crate::specs::Types::spacing_answer, crate::specs::Types::is_raw_answer, crate::specs::Types::delimiter_answer, crate::specs::Types::lit_kind_answer, crate::specs::Types::lit_kind_word))]

ghost use Rattle.std.specs.Prelude.{◌≡◌, ◌+◌, ◌*◌, ◌<◌};
ghost use Rattle.tree.specs.Types.{spacing_answer, is_raw_answer, delimiter_answer, lit_kind_answer};
ghost use Rattle.tree.specs.Types.{lit_kind_word};

use crate::fields::raw_count_fits;
use crate::types::{DelimiterKind, IdentIsRaw, LitKind, Spacing};
use pack::row;
use pack::row::Row;

impl TryFrom<u32> for Spacing {
    type Error = Row;

    ghost try_from_gives = { λ x r. r ≡ spacing_answer x };

    fn try_from(x: u32) -> Result<Self, Row> {
        match x {
            0 => Ok(Spacing::Alone),
            1 => Ok(Spacing::Joint),
            2 => Ok(Spacing::JointHidden),
            _ => Err(row::FIELD),
        }
    }
}

impl TryFrom<u32> for IdentIsRaw {
    type Error = Row;

    ghost try_from_gives = { λ x r. r ≡ is_raw_answer x };

    fn try_from(x: u32) -> Result<Self, Row> {
        match x {
            0 => Ok(IdentIsRaw::No),
            1 => Ok(IdentIsRaw::Yes),
            _ => Err(row::FIELD),
        }
    }
}

impl TryFrom<u32> for DelimiterKind {
    type Error = Row;

    ghost try_from_gives = { λ d r. r ≡ delimiter_answer d };

    fn try_from(d: u32) -> Result<Self, Row> {
        match d {
            0 => Ok(DelimiterKind::Parenthesis),
            1 => Ok(DelimiterKind::Brace),
            2 => Ok(DelimiterKind::Bracket),
            3 => Ok(DelimiterKind::Invisible),
            _ => Err(row::FIELD),
        }
    }
}

// A raw count belongs to three of the kinds.
pub fn lit_kind_from(kind: u32, raw_count: u32) -> Result<LitKind, Row>
    ensures { result ≡ lit_kind_answer kind raw_count }
{
    if !raw_count_fits(kind, raw_count) {
        return Err(row::FIELD);
    }
    match kind {
        0 => Ok(LitKind::Byte),
        1 => Ok(LitKind::Char),
        2 => Ok(LitKind::Integer),
        3 => Ok(LitKind::Float),
        4 => Ok(LitKind::Str),
        5 => Ok(LitKind::StrRaw(raw_count)),
        6 => Ok(LitKind::ByteStr),
        7 => Ok(LitKind::ByteStrRaw(raw_count)),
        8 => Ok(LitKind::CStr),
        9 => Ok(LitKind::CStrRaw(raw_count)),
        10 => Ok(LitKind::Err),
        _ => Err(row::FIELD),
    }
}

fn with_count(kind: u32, raw_count: u32) -> u64
    ensures { (result ≡ kind + 256 * raw_count) × (result < 2199023255552) }
{
    kind as u64 + 256 * (raw_count as u64)
}

// A raw count that row 2 refuses may need more than 32 bits.
pub fn lit_kind_word(kind: LitKind) -> u64
    ensures { (result ≡ lit_kind_word kind) × (result < 2199023255552) }
{
    match kind {
        LitKind::Byte => 0,
        LitKind::Char => 1,
        LitKind::Integer => 2,
        LitKind::Float => 3,
        LitKind::Str => 4,
        LitKind::StrRaw(raw_count) => with_count(5, raw_count),
        LitKind::ByteStr => 6,
        LitKind::ByteStrRaw(raw_count) => with_count(7, raw_count),
        LitKind::CStr => 8,
        LitKind::CStrRaw(raw_count) => with_count(9, raw_count),
        LitKind::Err => 10,
    }
}
