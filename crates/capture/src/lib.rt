// The decoder of a capture of the serial line: it finds each frame by looking ahead in the capture, without the receiver's record.
#![tactic(auto)]

mod ahead;
mod entries;

ghost use Rattle.std.specs.Prelude.{◌≡◌, ◌||◌, ◌≤◌, ◌<◌, length, ltb};
ghost use Rattle.capture.specs.Capture.{decoded};
ghost use Rattle.capture.specs.Answer.{entries_of, payloads_of, Decodes};
ghost use Rattle.capture.specs.Looking.{found_in, event_count, Room, PutsEvent, CountsOf};

use ahead::NextEvent;
pub use entries::{event_of, length_of, offset_of, payload_part};
use line::Event;
use wire::Refusal;

// How many entries and how many payload bytes there are.
#[derive(Clone, Copy)]
pub struct Counts {
    pub entries: usize,
    pub bytes: usize,
}

// How many events there are: one or none.
fn events_in(e: Option<Event>) -> usize
    ensures { (result ≡ event_count e) × (result ≤ 1) }
{
    match e {
        None => 0,
        Some(_) => 1,
    }
}

// The entries and payload bytes of a capture are counted. That a capture has at most 65,536 bytes stands in three clauses here: a struct around the slice would
// be made in `decode` and taken apart in each of the three.
fn count(s: &[u8]) -> Counts
    requires { length s.now ≤ 65536 }
    ensures { CountsOf s.now result }
{
    let mut store = [0u8; 512];
    let mut entries: usize = 0;
    let mut bytes: usize = 0;
    let mut i: usize = 0;
    // No `for`, here and in `write`: a turn goes on behind the event that it found, whose payload is in the store until the next. Nor one walk for both: a
    // closure that writes what it captures leaves no fact of it.
    while i < s.len() {
        let found = ahead::look(s, i, &mut store);
        entries += events_in(found.event);
        bytes += entries::payload_length(found.event);
        i = found.next;
    }
    Counts { entries, bytes }
}

// An event's entry and payload are put into the list and the buffer, from an index of each on.
fn put(
    found: NextEvent,
    store: &[u8; 512],
    list: &mut [u64],
    entries: usize,
    buffer: &mut [u8],
    bytes: usize,
)
    requires { Room found.event store.now list.old entries buffer.old bytes × (found.offset < 65536) }
    ensures { PutsEvent (found_in found store.now) list.old entries buffer.old bytes list.new buffer.new }
{
    let offset = found.offset as u16;
    match found.event {
        None => {}
        Some(
            Event::Frame {
                major,
                minor,
                wrapper,
                len,
            },
        ) => {
            list[entries] = entries::frame(major, minor, wrapper, len as u16, offset);
            // There is room.
            let _ = wire::store(line::frame_payload(store, len), bytes, buffer);
        }
        Some(Event::Refused { refusal, place }) => {
            list[entries] = entries::refusal(refusal, place as u16, offset);
        }
    }
}

// Whether the lent list or buffer is shorter than the answer. Where both are as long as the capture they suffice, and nothing is counted.
#[tactic(auto, using(crate::proofs::Rooms::rooms_suffice))]
fn short_of_room(s: &[u8], list: usize, buffer: usize) -> bool
    requires { length s.now ≤ 65536 }
    ensures { result ≡ (ltb list (length (entries_of s.now)) || ltb buffer (length (payloads_of s.now))) }
{
    if s.len() <= list && s.len() <= buffer {
        return false;
    }
    let c = count(s);
    list < c.entries || buffer < c.bytes
}

// The entries of a capture and its payloads, at the front of a list and a buffer with room for them.
fn write(s: &[u8], list: &mut [u64], buffer: &mut [u8]) -> Counts
    requires { (length s.now ≤ 65536) × (length (entries_of s.now) ≤ length list.old) × (length (payloads_of s.now) ≤ length buffer.old) }
    ensures { CountsOf s.now result × PutsEvent (decoded s.now) list.old 0 buffer.old 0 list.new buffer.new }
{
    let mut store = [0u8; 512];
    let mut entries: usize = 0;
    let mut bytes: usize = 0;
    let mut i: usize = 0;
    while i < s.len() {
        let found = ahead::look(s, i, &mut store);
        put(found, &store, list, entries, buffer, bytes);
        entries += events_in(found.event);
        bytes += entries::payload_length(found.event);
        i = found.next;
    }
    Counts { entries, bytes }
}

// The events of a capture, in order: an entry for each in `list`, and the frames' payloads, one behind the other, in `buffer`. 17 for a capture
// of more than 65,536 bytes, then 25 where the list or the buffer is shorter than the answer; a refusal writes nothing.
pub fn decode(capture: &[u8], list: &mut [u64], buffer: &mut [u8]) -> Result<Counts, Refusal>
    ensures { Decodes capture.now list.old buffer.old result list.new buffer.new }
{
    if 65536 < capture.len() {
        return Err(Refusal::BadMessageData);
    }
    if short_of_room(capture, list.len(), buffer.len()) {
        return Err(Refusal::NoRoom);
    }
    Ok(write(capture, list, buffer))
}
