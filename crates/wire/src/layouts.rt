// What a layout asks of parts and of pairs, and an image of five slices.
ghost use Rattle.std.specs.Prelude.{◌≡◌, ◌++◌, ◌∷◌, []};
ghost use Rattle.wire.specs.Fields.{past, second_above};
ghost use Rattle.wire.specs.Writing.{Stores, no_room};

use crate::{Part, Refusal};

// Whether a part runs past the end of a slice.
pub fn runs_past(s: &[u8], p: Part) -> bool
    ensures { result ≡ past s.now p }
{
    s.len() < p.start.saturating_add(p.len)
}

// Whether the second byte of a pair is above a limit.
pub fn second_above(limit: u8, s: &[u8]) -> bool
    ensures { result ≡ second_above limit s.now }
{
    for pair in s.chunks_exact(2) {
        if limit < pair[1] {
            return true;
        }
    }
    false
}

// An image of five slices, one behind the other, at the front; 25 where there is no room for it.
pub fn write5(
    a: &[u8],
    b: &[u8],
    c: &[u8],
    d: &[u8],
    e: &[u8],
    out: &mut [u8],
) -> Result<usize, Refusal>
    ensures { Stores (no_room 0 (a.now ++ (b.now ++ (c.now ++ (d.now ++ e.now)))) out.old ∷ []) 0
        (a.now ++ (b.now ++ (c.now ++ (d.now ++ e.now)))) out.old result out.new }
{
    let to_b = a.len();
    let to_c = to_b.saturating_add(b.len());
    let to_d = to_c.saturating_add(c.len());
    let to_e = to_d.saturating_add(d.len());
    let all = to_e.saturating_add(e.len());
    if out.len() < all {
        return Err(Refusal::NoRoom);
    }
    crate::copy(a, 0, out);
    crate::copy(b, to_b, out);
    crate::copy(c, to_c, out);
    crate::copy(d, to_d, out);
    crate::copy(e, to_e, out);
    Ok(all)
}
