// Text put into a lent run of bytes, one piece behind the other. What the run has no room for is left out.
#![tactic(auto)]

ghost use Rattle.std.specs.Prelude.{◌≡◌, [], ◌∷◌, ◌+◌, ◌<◌};
ghost use Rattle.format.specs.Lister.{decimal};
ghost use Rattle.text.specs.Typed.{Typed};

#[tactic(auto, using(crate::proofs::TextReturns::char_cases))]
pub fn put_char(out: &mut [u8], at: usize, x: u8) -> usize
    ensures { Typed out.old at (x ∷ []) result out.new }
{
    if out.len() <= at {
        return out.len();
    }
    out[at] = x;
    at + 1
}

#[tactic(auto, using(crate::proofs::TextReturns::text_cases))]
pub fn put_text(out: &mut [u8], at: usize, text: &[u8]) -> usize
    ensures { Typed out.old at text.now result out.new }
{
    let mut next = at.min(out.len());
    for byte in text {
        next = put_char(out, next, *byte);
    }
    next
}

fn digit(d: usize) -> u8
    requires { d < 10 }
    ensures { result ≡ 48 + d }
{
    b'0' + d as u8
}

// A number in decimal: the digits before the last, then the last.
pub fn put_decimal(out: &mut [u8], at: usize, n: usize) -> usize
    ensures { Typed out.old at (decimal n) result out.new }
{
    let last = digit(n % 10);
    if n < 10 {
        return put_char(out, at, last);
    }
    let next = put_decimal(out, at, n / 10);
    put_char(out, next, last)
}
