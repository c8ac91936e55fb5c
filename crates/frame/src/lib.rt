// The frame writer of a serial line.
#![tactic(auto)]

ghost use Rattle.std.specs.Prelude.{◌≡◌, ◌∷◌, [], ◌+◌, ◌*◌, ◌≤◌, length};
ghost use Rattle.std.proofs.lemmas.List.Edits.{sets};
ghost use Rattle.wire.specs.Numbers.{le};
ghost use Rattle.wire.specs.Writing.{Stores, Writes, no_room};
ghost use Rattle.crc.specs.Crc.{crc_of};
ghost use Rattle.frame.specs.Image.{is_mark, escape_byte, escape, covered, image};
ghost use Rattle.frame.specs.Writer.{bad_frame, header_of, sent};

use wire::Refusal;

// The start byte or the escape byte.
#[tactic(auto, unfolding(crate::specs::Image::is_mark))]
fn is_mark(b: u8) -> bool
    ensures { result ≡ is_mark b }
{
    b == 0x7E || b == 0x5C
}

// How many bytes a byte is on the line.
fn escaped_width(b: u8) -> usize
    ensures { (result ≡ length (escape_byte b)) × (result ≤ 2) }
{
    if is_mark(b) { 2 } else { 1 }
}

// A byte goes out; the place behind it is handed back.
fn put_byte(out: &mut [u8], at: usize, b: u8) -> usize
    requires { at + length (escape_byte b) ≤ length out.old }
    ensures { (result ≡ at + length (escape_byte b)) × (out.new ≡ sets out.old at (escape_byte b)) }
{
    if is_mark(b) {
        let next = at + 1;
        out[at] = 0x5C;
        out[next] = b ^ 0x40;
        return at + 2;
    }
    out[at] = b;
    at + 1
}

// How many bytes a slice is on the line.
fn escaped_len(s: &[u8]) -> usize
    ensures { (result ≡ length (escape s.now)) × (result ≤ 2 * length s.now) }
{
    let mut n = 0;
    for b in s {
        n += escaped_width(*b);
    }
    n
}

// A slice goes out; the place behind it is handed back.
fn put(out: &mut [u8], from: usize, s: &[u8]) -> usize
    requires { from + length (escape s.now) ≤ length out.old }
    ensures { (result ≡ from + length (escape s.now)) × (out.new ≡ sets out.old from (escape s.now)) }
{
    let mut at = from;
    for b in s {
        at = put_byte(out, at, *b);
    }
    at
}

// A start byte and three parts go out at the front.
fn put_frame(out: &mut [u8], head: &[u8], payload: &[u8], tail: &[u8])
    requires { length (sent head.now payload.now tail.now) ≤ length out.old }
    ensures { out.new ≡ sets out.old 0 (sent head.now payload.now tail.now) }
{
    out[0] = 0x7E;
    let p = put(out, 1, head);
    let q = put(out, p, payload);
    put(out, q, tail);
}

// How many bytes a start byte and three parts are on the line.
fn sent_len(head: &[u8], payload: &[u8], tail: &[u8]) -> usize
    requires { length head.now + length payload.now + length tail.now ≤ 1000 }
    ensures { result ≡ length (sent head.now payload.now tail.now) }
{
    let a = escaped_len(head);
    let b = escaped_len(payload);
    let c = escaped_len(tail);
    1 + a + b + c
}

// A start byte and three parts go out at the front: 25 where there is no room.
fn send(head: &[u8], payload: &[u8], tail: &[u8], out: &mut [u8]) -> Result<usize, Refusal>
    requires { length head.now + length payload.now + length tail.now ≤ 1000 }
    ensures { Stores (no_room 0 (sent head.now payload.now tail.now) out.old ∷ []) 0
        (sent head.now payload.now tail.now) out.old result out.new }
{
    let need = sent_len(head, payload, tail);
    if out.len() < need {
        return Err(Refusal::NoRoom);
    }
    put_frame(out, head, payload, tail);
    Ok(need)
}

// What stands before the payload: size, major, minor and wrapper type.
fn header(wrapper: u8, len: usize) -> [u8; 5]
    requires { len ≤ 507 }
    ensures { result ≡ header_of wrapper len }
{
    let size = wire::u16_bytes((len + 5) as u16);
    [size[0], size[1], 1, 0, wrapper]
}

// The CRC, over major, minor, wrapper type and payload.
fn trailer(wrapper: u8, payload: &[u8]) -> [u8; 2]
    ensures { result ≡ le 2 (crc_of (covered wrapper payload.now)) }
{
    let head = [1, 0, wrapper];
    let sum = crc::crc_from(0xFFFF, &head);
    wire::u16_bytes(crc::crc_from(sum, payload))
}

// 17: a wrapper type or a payload length that no frame has.
#[tactic(auto, unfolding(crate::specs::Writer::bad_frame))]
fn bad_frame(wrapper: u8, len: usize) -> bool
    ensures { result ≡ bad_frame wrapper len }
{
    match wrapper {
        0 | 128 => 507 < len,
        _ => true,
    }
}

// The frame at the front of `out`: 17 for a wrapper type or a size that no frame has, then 25 where there is no room.
pub fn write_frame(wrapper: u8, payload: &[u8], out: &mut [u8]) -> Result<usize, Refusal>
    ensures { Writes (bad_frame wrapper (length payload.now)) (image wrapper payload.now) out.old result out.new }
{
    if bad_frame(wrapper, payload.len()) {
        return Err(Refusal::BadMessageData);
    }
    let head = header(wrapper, payload.len());
    let tail = trailer(wrapper, payload);
    send(&head, payload, &tail, out)
}
