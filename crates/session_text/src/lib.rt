// The packet nonces that a session remembers, as a text: the count in decimal, and each place in base 16 as its three bytes stand in a packet, each behind a
// space. Zero places at the end are left out, and an empty memory is no text.
#![tactic(auto)]

ghost use Rattle.std.specs.Prelude.{◌≡◌, ◌≤◌};
ghost use Rattle.text.specs.Puts.{Puts};
ghost use Rattle.session_text.specs.Memory as specs;

use session::NonceMemory;
use text::reading;

// ---- put

// How many places stand before the zero ones at the end.
fn filled(places: [u32; 8]) -> usize
    ensures { (result ≡ specs.filled 8 places) × (result ≤ 8) }
{
    places.iter().rposition(|n| *n != 0).map_or(0, |k| k + 1)
}

fn put_place(out: &mut [u8], at: usize, nonce: u32) -> usize
    ensures { Puts (specs.place_text nonce) at out.old result out.new }
{
    let bytes = wire::u32_bytes(nonce);
    let behind = text::put(out, at, b" ");
    text::hex(out, behind, &bytes[..3])
}

fn put_places(out: &mut [u8], at: usize, places: &[u32]) -> usize
    ensures { Puts (specs.places_text places.now) at out.old result out.new }
{
    let mut behind = at;
    for nonce in places {
        behind = put_place(out, behind, *nonce);
    }
    behind
}

// A count without places, nothing for 0.
fn put_count(out: &mut [u8], at: usize, count: usize) -> usize
    ensures { Puts (specs.count_text count) at out.old result out.new }
{
    if count == 0 {
        return at;
    }
    text::named(out, at, b" ", count as u64)
}

// The memory.
pub fn memory(out: &mut [u8], at: usize, m: NonceMemory) -> usize
    ensures { Puts (specs.memory_text m) at out.old result out.new }
{
    let count = m.count;
    let places = m.nonces;
    let n = filled(places);
    if n == 0 {
        return put_count(out, at, count);
    }
    let behind = text::named(out, at, b" ", count as u64);
    put_places(out, behind, &places[..n])
}

// ---- read back

// The packet nonce in a field.
fn nonce_in(s: &[u8], k: usize) -> u32
    ensures { result ≡ specs.nonce_in (specs.word k s.now) }
{
    let mut bytes = [0u8; 3];
    reading::bytes(&mut bytes, 0, reading::field(s, b' ', k));
    wire::read_u32(&bytes, 0)
}

// The memory whose count is the field with a number, counted from 0; a place that is not there is zero.
pub fn memory_in(s: &[u8], k: u8) -> NonceMemory
    ensures { result ≡ specs.memory_in k s.now }
{
    let at = wire::wide(k);
    NonceMemory {
        count: reading::number(reading::field(s, b' ', at)) as usize,
        nonces: [
            nonce_in(s, at + 1),
            nonce_in(s, at + 2),
            nonce_in(s, at + 3),
            nonce_in(s, at + 4),
            nonce_in(s, at + 5),
            nonce_in(s, at + 6),
            nonce_in(s, at + 7),
            nonce_in(s, at + 8),
        ],
    }
}
