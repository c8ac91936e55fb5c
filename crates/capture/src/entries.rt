// Entries of the lent list: an event and the offset of its start byte as one number, and back. The C interface lends the list as 64-bit numbers.
ghost use Rattle.std.specs.Prelude.{◌≡◌, ◌∷◌, [], ◌≤◌, ◌<◌, length, take};
ghost use Rattle.wire.specs.Refusals.{number_of};
ghost use Rattle.capture.specs.Entry as specs;

use line::Event;
use wire::{Part, Refusal};

// The number of eight bytes in which the fields stand.
#[tactic(auto, using(wire::proofs::Numbers::num_split))]
fn packed(kind: u8, count: u16, major: u8, minor: u8, wrapper: u8, offset: u16) -> u64
    ensures { result ≡ specs.packed (kind ∷ count ∷ major ∷ minor ∷ wrapper ∷ offset ∷ []) }
{
    let c = wire::u16_bytes(count);
    let o = wire::u16_bytes(offset);
    let bytes = [kind, c[0], c[1], major, minor, wrapper, o[0], o[1]];
    // In two halves: taken as one number, a frame's major and minor are loaded as two bytes, and a refusal's one byte, which was just stored, with what stands
    // behind it.
    let low = u64::from(wire::read_u32(&bytes, 0));
    let high = u64::from(wire::read_u32(&bytes, 4));
    low + 4294967296 * high
}

// A refusal's entry.
pub(crate) fn refusal(refusal: Refusal, place: u16, offset: u16) -> u64
    ensures { result ≡ specs.packed (number_of refusal ∷ place ∷ 0 ∷ 0 ∷ 0 ∷ offset ∷ []) }
{
    packed(refusal.number(), place, 0, 0, 0, offset)
}

// A frame's entry.
pub(crate) fn frame(major: u8, minor: u8, wrapper: u8, len: u16, offset: u16) -> u64
    ensures { result ≡ specs.packed (5 ∷ len ∷ major ∷ minor ∷ wrapper ∷ offset ∷ []) }
{
    packed(5, len, major, minor, wrapper, offset)
}

// The refusal of an entry's kind.
#[tactic(auto, using(crate::proofs::Packing::other_kind))]
fn refusal_of_kind(kind: u8) -> Option<Refusal>
    ensures { result ≡ specs.refusal_of_kind kind }
{
    match kind {
        1 => Some(Refusal::StartInFrame),
        2 => Some(Refusal::BadEscape),
        3 => Some(Refusal::BadFrameSize),
        4 => Some(Refusal::CrcDiffers),
        _ => None,
    }
}

// The event of an entry; none where its kind is neither a refusal's number nor a frame's.
#[tactic(auto, using(crate::proofs::Packing::frame_event, crate::proofs::Packing::no_event, crate::proofs::Packing::refusal_event))]
pub fn event_of(entry: u64) -> Option<Event>
    ensures { result ≡ specs.event_of entry }
{
    let bytes = wire::u64_bytes(entry);
    let count = usize::from(wire::read_u16(&bytes, 1));
    if bytes[0] == 5 {
        return Some(Event::Frame {
            major: bytes[3],
            minor: bytes[4],
            wrapper: bytes[5],
            len: count,
        });
    }
    let refusal = refusal_of_kind(bytes[0])?;
    Some(Event::Refused {
        refusal,
        place: count,
    })
}

// The offset of the event's start byte in the capture.
pub fn offset_of(entry: u64) -> usize
    ensures { result ≡ specs.offset_of entry }
{
    let bytes = wire::u64_bytes(entry);
    usize::from(wire::read_u16(&bytes, 6))
}

// How long an event's payload is.
pub(crate) fn payload_length(e: Option<Event>) -> usize
    ensures { result ≡ specs.payload_length e }
{
    match e {
        Some(Event::Frame { len, .. }) => len,
        None | Some(Event::Refused { .. }) => 0,
    }
}

// How long the payload of an entry is: 0 where it is no frame's.
pub fn length_of(entry: u64) -> usize
    ensures { (result ≡ specs.length_of entry) × (result < 65536) }
{
    payload_length(event_of(entry))
}

// The payload bytes of the first `n` entries.
#[tactic(auto, using(crate::proofs::Packing::total_next), unfolding(crate::specs::Entry::payload_total))]
fn payload_total(list: &[u64], n: usize) -> usize
    requires { (n ≤ length list.now) × (n ≤ 65536) }
    ensures { result ≡ specs.payload_total (take n list.now) }
{
    let mut total = 0;
    for entry in &list[..n] {
        total += length_of(*entry);
    }
    total
}

// Where the payload of an entry, counted from 0, lies in the lent buffer: behind those of the entries before it. `list` is what the decoder
// wrote, so many entries of the lent list as it answered. Empty for a refusal, for an entry that is not there, and from 65,536 on, which no
// capture has.
pub fn payload_part(list: &[u64], k: usize) -> Part
    ensures { result ≡ specs.payload_part list.now k }
{
    if 65536 <= k {
        return Part { start: 0, len: 0 };
    }
    if list.len() <= k {
        return Part {
            start: payload_total(list, list.len()),
            len: 0,
        };
    }
    let start = payload_total(list, k);
    Part {
        start,
        len: length_of(list[k]),
    }
}
