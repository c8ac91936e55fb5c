// What several crates need: parts of a slice, bytes compared, little-endian numbers, signed bytes, the answer of a writer.
#![tactic(auto)]

pub mod layouts;
mod refusals;

ghost use Rattle.std.specs.Prelude.{◌≡◌, ◌++◌, ◌∷◌, [], ◌+◌, ◌-◌, ◌%◌, ◌≤◌, ◌<◌, ℕ, length, get_or};
ghost use Rattle.std.proofs.lemmas.List.Edits.{sets};
ghost use Rattle.wire.specs.Numbers.{num, le};
ghost use Rattle.wire.specs.Parts.{part_of};
ghost use Rattle.wire.specs.Same.{same_bytes};
ghost use Rattle.wire.specs.Signed.{signed, unsigned};
ghost use Rattle.wire.specs.Writing.{Stores, no_room};

pub use refusals::Refusal;

// A part of a lent slice.
#[derive(Clone, Copy)]
pub struct Part {
    pub start: usize,
    pub len: usize,
}

// A byte as a count.
pub fn wide(b: u8) -> usize
    ensures { (result ≡ b) × (result < 256) }
{
    usize::from(b)
}

// The part of a slice, empty where it runs past the end.
pub fn part_of(s: &[u8], p: Part) -> &[u8]
    ensures { result.now ≡ part_of s.now p }
{
    let rest = s.get(p.start..).unwrap_or(&[]);
    rest.get(..p.len).unwrap_or(&[])
}

// How many of so many bytes stand from a place on.
pub fn count_from(len: usize, at: usize) -> usize
    ensures { result ≡ len - at }
{
    len.saturating_sub(at)
}

// The byte at a place, 0 past the end.
pub fn byte_at(s: &[u8], at: usize) -> u8
    ensures { (result ≡ get_or s.now at 0) × (result < 256) }
{
    s.get(at).copied().unwrap_or(0)
}

// Whether two slices hold the same bytes.
pub fn same_bytes(s: &[u8], t: &[u8]) -> bool
    ensures { result ≡ same_bytes s.now t.now }
{
    s == t
}

// So many bytes at a place; 0 for each past the end.
fn bytes_at<const N: usize>(s: &[u8], at: usize) -> [u8; N]
    ensures { (k : ℕ) → k < N → get_or result k 0 ≡ get_or s.now (at + k) 0 }
{
    let rest = s.get(at..).unwrap_or(&[]);
    let mut bytes = [0; N];
    for (k, byte) in bytes.iter_mut().enumerate() {
        *byte = byte_at(rest, k);
    }
    bytes
}

// The number of two bytes at a place, low byte first; a byte past the end counts as 0.
pub fn read_u16(s: &[u8], at: usize) -> u16
    ensures { (result ≡ num 2 at s.now) × (result < 65536) }
{
    u16::from_le_bytes(bytes_at(s, at))
}

// The number of three bytes at a place, low byte first; a byte past the end counts as 0.
pub fn read_u24(s: &[u8], at: usize) -> u32
    ensures { result ≡ num 3 at s.now }
{
    let [low, middle, high]: [u8; 3] = bytes_at(s, at);
    u32::from_le_bytes([low, middle, high, 0])
}

// The number of four bytes at a place, low byte first; a byte past the end counts as 0.
pub fn read_u32(s: &[u8], at: usize) -> u32
    ensures { result ≡ num 4 at s.now }
{
    u32::from_le_bytes(bytes_at(s, at))
}

// The number of eight bytes at a place, low byte first; a byte past the end counts as 0.
pub fn read_u64(s: &[u8], at: usize) -> u64
    ensures { result ≡ num 8 at s.now }
{
    u64::from_le_bytes(bytes_at(s, at))
}

// The number that a byte stands for in a signed field.
pub fn signed_of(b: u8) -> i8
    ensures { result ≡ signed b }
{
    b.cast_signed()
}

// The byte that stands for a signed number.
pub fn unsigned_of(v: i8) -> u8
    ensures { result ≡ unsigned v }
{
    v.cast_unsigned()
}

// Four functions and no generic one: an array's length cannot be worked out from a type, and each is a call of the library's method.

// The two bytes of a number, low byte first.
pub fn u16_bytes(v: u16) -> [u8; 2]
    ensures { result ≡ le 2 v }
{
    v.to_le_bytes()
}

// The low three bytes of a number, low byte first.
pub fn u24_bytes(v: u32) -> [u8; 3]
    ensures { result ≡ le 3 (v % 16777216) }
{
    let [low, middle, high, _] = v.to_le_bytes();
    [low, middle, high]
}

// The four bytes of a number, low byte first.
pub fn u32_bytes(v: u32) -> [u8; 4]
    ensures { result ≡ le 4 v }
{
    v.to_le_bytes()
}

// The eight bytes of a number, low byte first.
pub fn u64_bytes(v: u64) -> [u8; 8]
    ensures { result ≡ le 8 v }
{
    v.to_le_bytes()
}

// Bytes from a place on.
fn copy(bytes: &[u8], at: usize, out: &mut [u8])
    requires { at + length bytes.now ≤ length out.old }
    ensures { out.new ≡ sets out.old at bytes.now }
{
    out[at..at + bytes.len()].copy_from_slice(bytes);
}

// Bytes from a place on; 25 where there is no room for them.
pub fn store(bytes: &[u8], at: usize, out: &mut [u8]) -> Result<usize, Refusal>
    ensures { Stores (no_room at bytes.now out.old ∷ []) at bytes.now out.old result out.new }
{
    if out.len() < at.saturating_add(bytes.len()) {
        return Err(Refusal::NoRoom);
    }
    copy(bytes, at, out);
    Ok(bytes.len())
}

// An image of three slices, one behind the other, at the front; 25 where there is no room for it.
pub fn write3(a: &[u8], b: &[u8], c: &[u8], out: &mut [u8]) -> Result<usize, Refusal>
    ensures { Stores (no_room 0 (a.now ++ (b.now ++ c.now)) out.old ∷ []) 0
        (a.now ++ (b.now ++ c.now)) out.old result out.new }
{
    layouts::write5(a, b, c, &[], &[], out)
}
