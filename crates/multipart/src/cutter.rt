// The cutter: a message as parts, one behind the other.
ghost use Rattle.std.specs.Prelude.{◌≡◌, suc, ◌+◌, ◌*◌, ◌≤◌, ◌<◌, length};
ghost use mathlib.Core.List.{◌∷◌, flatten};
ghost use Rattle.std.proofs.lemmas.List.Edits.{sets};
ghost use Rattle.wire.specs.Writing.{Stores};
ghost use Rattle.multipart.specs.Cutting.{parts, cut_after, pieces_before, cut_image, cutter_rules};

use wire::Refusal;

// A part at a place of the room.
fn put_part(counter: u8, bytes: &[u8], at: usize, out: &mut [u8])
    requires { at + suc (length bytes.now) ≤ length out.old }
    ensures { out.new ≡ sets out.old at (counter ∷ bytes.now) }
{
    let next = at + 1;
    out[at] = counter;
    let _ = wire::store(bytes, next, out);
}

// How many parts stand before the last.
fn parts_before(len: usize, size: usize) -> usize
    requires { 0 < size }
    ensures { (result ≡ pieces_before size len) × (result * size ≤ len) }
{
    len.saturating_sub(1) / size
}

// `full` parts of `size` bytes, and the rest as the last. Part `k` stands at `from + k`: behind `k` counters and the bytes before its own.
fn put_parts(message: &[u8], size: usize, full: usize, out: &mut [u8])
    requires { (full ≤ 255) × (full * size ≤ length message.now) × (length message.now + suc full ≤ length out.old) }
    ensures { out.new ≡ sets out.old 0 (flatten (parts (cut_after full size message.now))) }
{
    let mut from = 0;
    for k in 0..full {
        let end = from + size;
        put_part(k as u8, &message[from..end], from + k, out);
        from = end;
    }
    put_part(255, &message[from..], from + full, out);
}

// A message as parts, one behind the other at the front of `out`: `size` data bytes in each but the last, which is
// empty only where the message is, and a counter byte before them. 27 for a message above 500 bytes, 17 where `size` is 0 or more than 256 parts would be
// needed, then 25; a refusal writes nothing.
pub fn cut(message: &[u8], size: usize, out: &mut [u8]) -> Result<usize, Refusal>
    ensures { Stores (cutter_rules size message.now out.old) 0
        (cut_image size message.now) out.old result out.new }
{
    let len = message.len();
    if 500 < len {
        return Err(Refusal::MessageTooLong);
    }
    if size == 0 {
        return Err(Refusal::BadMessageData);
    }
    let full = parts_before(len, size);
    if 255 < full {
        return Err(Refusal::BadMessageData);
    }
    let total = len + full + 1;
    if out.len() < total {
        return Err(Refusal::NoRoom);
    }
    put_parts(message, size, full, out);
    Ok(total)
}
