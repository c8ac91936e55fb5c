// Captures through the decoder: what it answers, what its list and its buffer hold afterwards, whether the receiver, fed byte by byte from
// fresh, hands out the same, and whether the lister prints the same lines.
//
// A line of standard input has fields with | between:
//   LABEL|LIST|BUFFER|BYTES   a capture, with a list of so many entries and a buffer of so many bytes, all their bytes EE
// Bytes are listed as 0709+00*96. The first eight events are printed as OFFSET frame MAJOR MINOR TYPE LENGTH PAYLOAD or OFFSET refused N PLACE;
// a list of more than eight entries, or a buffer of more than 64 bytes, by its CRC, low byte first.
#![tactic(auto)]

ghost use Rattle.std.specs.Prelude.{◌≡◌, ◌+◌, ◌≤◌, ◌<◌, length};

use capture::Counts;
use console::front;
use line::Event;
use std::io;
use text::reading;
use wire::{Part, Refusal};

// `; OFFSET frame MAJOR MINOR TYPE LENGTH` and the payload, or `; OFFSET refused N PLACE`.
fn event(out: &mut [u8], at: usize, offset: usize, e: Option<Event>, payload: &[u8]) -> usize {
    let named = text::named(out, at, b"; ", offset as u64);
    let behind = listing::event_numbers(out, named, e);
    if payload.is_empty() {
        return behind;
    }
    let space = text::put(out, behind, b" ");
    text::hex(out, space, payload)
}

// The same of an entry.
fn entry_event(out: &mut [u8], at: usize, entry: u64, payload: &[u8]) -> usize {
    event(
        out,
        at,
        capture::offset_of(entry),
        capture::event_of(entry),
        payload,
    )
}

// The first eight events, as a caller reads them.
fn events(out: &mut [u8], at: usize, list: &[u64], buffer: &[u8]) -> usize {
    let mut behind = at;
    for (k, entry) in list.iter().take(8).enumerate() {
        let part = capture::payload_part(list, k);
        behind = entry_event(out, behind, *entry, wire::part_of(buffer, part));
    }
    behind
}

// How many entries and payload bytes the receiver's events have come to, and whether each entry said the same.
#[derive(Clone, Copy)]
struct Compared {
    entries: usize,
    bytes: usize,
    same: bool,
}

// The next entry beside an event of the receiver.
fn compare(
    c: Compared,
    offset: usize,
    e: Option<Event>,
    payload: &[u8],
    list: &[u64],
    buffer: &[u8],
) -> Compared
    requires { c.bytes < 4294967296 }
    ensures { result.bytes ≤ c.bytes + 65535 }
{
    let Some(entry) = list.get(c.entries) else {
        return Compared { same: false, ..c };
    };
    let start = c.bytes;
    let len = capture::length_of(*entry);
    let mut a = [0u8; 2048];
    let n = event(&mut a, 0, offset, e, payload);
    let mut b = [0u8; 2048];
    let m = entry_event(
        &mut b,
        0,
        *entry,
        wire::part_of(buffer, Part { start, len }),
    );
    let same = check::same(front(&a, n), front(&b, m));
    Compared {
        entries: c.entries + 1,
        bytes: start + len,
        same: c.same && same,
    }
}

// The same, where there is an event.
fn compare_any(
    c: Compared,
    offset: usize,
    e: Option<Event>,
    store: &[u8; 512],
    list: &[u64],
    buffer: &[u8],
) -> Compared
    requires { c.bytes < 4294967296 }
    ensures { result.bytes ≤ c.bytes + 65535 }
{
    match e {
        None => c,
        Some(Event::Frame { len, .. }) => {
            compare(c, offset, e, line::frame_payload(store, len), list, buffer)
        }
        Some(Event::Refused { .. }) => compare(c, offset, e, b"", list, buffer),
    }
}

// Whether the receiver, fed byte by byte from fresh, hands out what the entries say.
fn receiver_same(s: &[u8], list: &[u64], buffer: &[u8]) -> bool
    requires { length s.now ≤ 65536 }
{
    let mut receiver = line::fresh();
    let mut c = Compared {
        entries: 0,
        bytes: 0,
        same: true,
    };
    for (i, b) in s.iter().enumerate() {
        // The frame's start byte stands so many bytes before this one.
        let offset = i.saturating_sub(receiver.progress.count);
        let t = receiver.step(*b);
        receiver = t.receiver;
        c = compare_any(c, offset, t.event, &receiver.store, list, buffer);
    }
    c.same && c.entries == list.len()
}

// Room for the lister's lines: at most 12 bytes for each of a capture's.
fn lines_room() -> [u8; 786500]
    ensures { 786500 ≡ length result }
{
    [0; 786500]
}

// The lister's lines of the entries' events.
fn lines(out: &mut [u8], list: &[u64]) -> usize {
    let mut at = 0;
    for entry in list {
        at = listing::event_line(out, at, capture::event_of(*entry));
    }
    at
}

// Whether the lister prints these lines for the capture.
fn lister_same(s: &[u8], list: &[u64]) -> bool {
    let mut listed = lines_room();
    let fresh = line::fresh();
    let mut store = fresh.store;
    let l = listing::list_some(fresh.progress, &mut store, s, 0, &mut listed);
    let mut decoded = lines_room();
    let n = lines(&mut decoded, list);
    check::same(front(&listed, l.at), front(&decoded, n))
}

fn verdict(out: &mut [u8], at: usize, name: &[u8], same: bool) -> usize {
    let behind = text::put(out, at, name);
    if same {
        text::put(out, behind, b" same")
    } else {
        text::put(out, behind, b" differs")
    }
}

// Whether receiver and lister say what the entries do.
fn verdicts(out: &mut [u8], at: usize, s: &[u8], list: &[u64], buffer: &[u8]) -> usize {
    if 65536 < s.len() {
        return at;
    }
    let behind = verdict(out, at, b"; receiver", receiver_same(s, list, buffer));
    verdict(out, behind, b"; lister", lister_same(s, list))
}

// The entries of a list, one by one.
fn entry_bytes(out: &mut [u8], at: usize, list: &[u64]) -> usize {
    let mut behind = at;
    for entry in list {
        let space = text::put(out, behind, b" ");
        behind = text::hex(out, space, &entry.to_le_bytes());
    }
    behind
}

fn list_crc(list: &[u64]) -> u16 {
    list.iter().fold(
        0xFFFF,
        |crc, entry| crc::crc_from(crc, &entry.to_le_bytes()),
    )
}

fn crc_text(out: &mut [u8], at: usize, crc: u16) -> usize {
    let behind = text::put(out, at, b" CRC ");
    text::hex(out, behind, &crc.to_le_bytes())
}

fn list_text(out: &mut [u8], at: usize, list: &[u64]) -> usize {
    let behind = text::put(out, at, b"; list");
    if list.len() <= 8 {
        return entry_bytes(out, behind, list);
    }
    crc_text(out, behind, list_crc(list))
}

fn buffer_text(out: &mut [u8], at: usize, buffer: &[u8]) -> usize {
    let behind = text::put(out, at, b"; buffer");
    if 64 < buffer.len() {
        return crc_text(out, behind, crc::crc(buffer));
    }
    let space = text::put(out, behind, b" ");
    text::hex(out, space, buffer)
}

// The list and the buffer, all of them.
fn rooms(out: &mut [u8], at: usize, list: &[u64], buffer: &[u8]) -> usize {
    let behind = list_text(out, at, list);
    buffer_text(out, behind, buffer)
}

// The first entries of a list; all of them where there are fewer.
fn first(list: &[u64], n: usize) -> &[u64] {
    &list[..n.min(list.len())]
}

// What the decoder answered and left, and whether receiver and lister say the same.
fn answer(
    out: &mut [u8],
    at: usize,
    s: &[u8],
    answer: Result<Counts, Refusal>,
    list: &[u64],
    buffer: &[u8],
) -> usize {
    match answer {
        Ok(Counts { entries, bytes }) => {
            let behind = text::named(out, at, b" entries ", entries as u64);
            let start = text::named(out, behind, b", bytes ", bytes as u64);
            let found = first(list, entries);
            let told = events(out, start, found, buffer);
            let end = rooms(out, told, list, buffer);
            verdicts(out, end, s, found, buffer)
        }
        Err(refusal) => {
            let behind = text::named(out, at, b" refused ", u64::from(refusal.number()));
            rooms(out, behind, list, buffer)
        }
    }
}

// A capture through the decoder.
fn decoded(out: &mut [u8], at: usize, s: &[u8], list: &mut [u64], buffer: &mut [u8]) -> usize {
    let d = capture::decode(s, list, buffer);
    answer(out, at, s, d, list, buffer)
}

fn list_room() -> [u64; 65600]
    ensures { 65600 ≡ length result }
{
    [0xEEEE_EEEE_EEEE_EEEE; 65600]
}

fn room() -> [u8; 65600]
    ensures { 65600 ≡ length result }
{
    [0xEE; 65600]
}

fn number(line: &[u8], k: usize) -> usize {
    reading::number(reading::field(line, b'|', k)) as usize
}

// The capture and the rooms that a line names.
fn outcome(out: &mut [u8], at: usize, line: &[u8]) -> usize {
    let mut bytes = room();
    let n = reading::bytes(&mut bytes, 0, reading::field(line, b'|', 3));
    let mut list = list_room();
    let entries = number(line, 1) % 65601;
    let mut buffer = room();
    let len = number(line, 2) % 65601;
    decoded(
        out,
        at,
        front(&bytes, n),
        &mut list[..entries],
        &mut buffer[..len],
    )
}

// One line of the output.
fn case<R: Print>(rt: &R, line: &[u8]) -> io::Result<()> {
    let mut out = [0u8; 16384];
    let label = text::put(&mut out, 0, reading::field(line, b'|', 0));
    let start = text::put(&mut out, label, b":");
    let end = outcome(&mut out, start, line);
    let all = text::put(&mut out, end, b"\n");
    rt.write_all(front(&out, all))
}

fn main(rt: HostRuntime) -> io::Result<()> {
    console::for_each_line(&rt, &mut console::large_buffer(), |line| case(&rt, line))
}
