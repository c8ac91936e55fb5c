// Looking ahead in a capture: the next start byte, the unescaped bytes behind it, and the event that they come to.
ghost use Rattle.std.specs.Prelude.{◌≡◌, true, false, ◌||◌, ◌+◌, ◌-◌, ◌≤◌, ◌<◌, length, take, drop, eqb};
ghost use Rattle.std.proofs.lemmas.List.Edits.{sets};
ghost use Rattle.line.specs.Line.{emitted};
ghost use Rattle.capture.specs.Ahead.{ahead};
ghost use Rattle.capture.specs.Capture as specs;
ghost use Rattle.capture.specs.Looking.{NoneIn, StartFrom, Stuck, Takes, Continues, no_event, refusal_at, stopped, NextIs, Looks};

use line::Event;
use wire::Refusal;

// An event, if there is one, the offset of its start byte, and where to go on: where there is none, that is the end of the capture.
#[derive(Clone, Copy)]
pub(crate) struct NextEvent {
    pub(crate) event: Option<Event>,
    pub(crate) offset: usize,
    pub(crate) next: usize,
}

// Whether one of two bytes is among 16. All 16 are looked at, so that they can be compared at once.
fn any_of(s: &[u8], from: usize, a: u8, b: u8) -> bool
    requires { from + 16 ≤ length s.now }
    ensures { result ≡ false → NoneIn s.now from (from + 16) a b }
{
    let mut any = false;
    for x in &s[from..from + 16] {
        any |= (*x == a) | (*x == b);
    }
    any
}

// The first start byte from an offset on, the end where there is none: 16 bytes at a time where it is not among them.
fn next_start(s: &[u8], from: usize) -> usize
    requires { from < length s.now }
    ensures { StartFrom s.now from result }
{
    if s[from] == 0x7E {
        return from;
    }
    let mut i = from;
    // Not over `as_chunks`: where there is no start byte, that takes 1.4 times as long.
    while 16 <= s.len() - i {
        if any_of(s, i, 0x7E, 0x7E) {
            return line::first_start(s, i);
        }
        i += 16;
    }
    line::first_start(s, i)
}

// How many unescaped bytes stand at the front of the store, and the offset behind the last.
#[derive(Clone, Copy)]
struct Taken {
    got: usize,
    at: usize,
}

// More of them, byte by byte.
fn one_by_one(s: &[u8], had: Taken, most: usize, store: &mut [u8]) -> Taken
    requires { (had.got ≤ most) × (most ≤ length store.old) × (had.at ≤ length s.now) }
    ensures { Takes s.now had.got had.at most store.old result.got result.at store.new }
{
    let mut at = had.at;
    for got in had.got..most {
        let Some(u) = line::unescape_at(s, at) else {
            return Taken { got, at };
        };
        store[got] = u.byte;
        at += u.width;
    }
    Taken { got: most, at }
}

// Whether the next 16 bytes are there and stand for themselves.
fn sixteen_plain(s: &[u8], from: usize) -> bool
    requires { from ≤ length s.now }
    ensures { result ≡ true → (from + 16 ≤ length s.now) × NoneIn s.now from (from + 16) 0x7E 0x5C }
{
    16 <= s.len() - from && !any_of(s, from, 0x7E, 0x5C)
}

// 16 bytes, copied into the store.
fn copy_sixteen(s: &[u8], from: usize, store: &mut [u8], to: usize)
    requires { (from + 16 ≤ length s.now) × (to + 16 ≤ length store.old) }
    ensures { store.new ≡ sets store.old to (take 16 (drop from s.now)) }
{
    store[to..to + 16].copy_from_slice(&s[from..from + 16]);
}

// Some more: 16 at once where they stand for themselves, else up to 16 byte by byte.
fn take_some(s: &[u8], had: Taken, most: usize, store: &mut [u8]) -> Taken
    requires { (had.got < most) × (most ≤ length store.old) × (had.at ≤ length s.now) }
    ensures { Continues s.now had.got had.at most store.old result.got result.at store.new }
{
    if most - had.got < 16 {
        return one_by_one(s, had, most, store);
    }
    if sixteen_plain(s, had.at) {
        copy_sixteen(s, had.at, store, had.got);
        return Taken {
            got: had.got + 16,
            at: had.at + 16,
        };
    }
    one_by_one(s, had, had.got + 16, store)
}

// `n` unescaped bytes from an offset on, at the front of the store: fewer where no other is found.
fn unescape(s: &[u8], from: usize, n: usize, store: &mut [u8]) -> Taken
    requires { (from ≤ length s.now) × (n ≤ length store.old) }
    ensures { Takes s.now 0 from n store.old result.got result.at store.new }
{
    let mut t = Taken { got: 0, at: from };
    // No `for`: a turn takes 1 to 16 of them.
    while t.got < n {
        let more = take_some(s, t, n, store);
        if more.got == t.got {
            return more;
        }
        t = more;
    }
    t
}

// No event up to the end of the capture.
fn nothing(s: &[u8], offset: usize) -> NextEvent
    ensures { result ≡ no_event offset (length s.now) }
{
    NextEvent {
        event: None,
        offset,
        next: s.len(),
    }
}

// A refusal at the byte before `behind`.
fn refused(refusal: Refusal, offset: usize, behind: usize, next: usize) -> NextEvent
    requires { offset ≤ behind }
    ensures { result ≡ refusal_at refusal offset behind next }
{
    NextEvent {
        event: Some(Event::Refused {
            refusal,
            place: behind - offset,
        }),
        offset,
        next,
    }
}

// What comes of a frame where no unescaped byte is found: it is refused at a start byte and at a bad escape; nothing at the end of the capture.
fn broken(s: &[u8], offset: usize, at: usize) -> NextEvent
    requires { (offset < at) × (at ≤ length s.now) × Stuck (ahead 1 (drop at s.now)) }
    ensures { (store : _) → NextIs s.now offset at (stopped (at - offset) (ahead 1 (drop at s.now))) result store }
{
    if s.len() <= at {
        return nothing(s, offset);
    }
    let next = at + 1;
    if s[at] == 0x7E {
        return refused(Refusal::StartInFrame, offset, next, at);
    }
    if s.len() <= next {
        return nothing(s, offset);
    }
    let behind = at + 2;
    if s[next] == 0x7E {
        return refused(Refusal::StartInFrame, offset, behind, next);
    }
    refused(Refusal::BadEscape, offset, behind, behind)
}

// All bytes that the size counts are in the store: a frame, refused where its CRC differs.
fn checked(store: &[u8; 512], size: usize, offset: usize, behind: usize) -> NextEvent
    requires { (5 ≤ size) × (size ≤ 512) × (offset ≤ behind) }
    ensures { (emitted result.event store.now ≡ specs.checked size (behind - offset) (take size store.now))
        × (result.offset ≡ offset) × (result.next ≡ behind) }
{
    let at = size - 2;
    if crc::crc(&store[..at]) != wire::read_u16(store, at) {
        return refused(Refusal::CrcDiffers, offset, behind, behind);
    }
    NextEvent {
        event: Some(Event::Frame {
            major: store[0],
            minor: store[1],
            wrapper: store[2],
            len: size - 5,
        }),
        offset,
        next: behind,
    }
}

// The size, up to the offset `at`: refused where no frame has it, else what the bytes that it counts come to.
fn sized(s: &[u8], offset: usize, size: usize, at: usize, store: &mut [u8; 512]) -> NextEvent
    requires { (offset < at) × (at ≤ length s.now) }
    ensures { NextIs s.now offset at (specs.sized size (at - offset) (drop at s.now)) result store.new }
{
    if size < 5 || 512 < size {
        return refused(Refusal::BadFrameSize, offset, at, at);
    }
    let t = unescape(s, at, size, store);
    if t.got < size {
        return broken(s, offset, t.at);
    }
    checked(store, size, offset, t.at)
}

// What the start byte at an offset comes to.
fn behind_start(s: &[u8], offset: usize, store: &mut [u8; 512]) -> NextEvent
    requires { offset < length s.now }
    ensures { NextIs s.now offset (offset + 1) (specs.behind_start (drop (offset + 1) s.now)) result store.new }
{
    let at = offset + 1;
    let Some(low) = line::unescape_at(s, at) else {
        return broken(s, offset, at);
    };
    let next = at + low.width;
    let Some(high) = line::unescape_at(s, next) else {
        return broken(s, offset, next);
    };
    let size = u16::from_le_bytes([low.byte, high.byte]);
    sized(s, offset, usize::from(size), next + high.width, store)
}

// The next event from an offset on.
pub(crate) fn look(s: &[u8], from: usize, store: &mut [u8; 512]) -> NextEvent
    ensures { Looks s.now from result store.new }
{
    if s.len() <= from {
        return nothing(s, from);
    }
    let offset = next_start(s, from);
    if s.len() <= offset {
        return nothing(s, from);
    }
    behind_start(s, offset, store)
}
