// Captures through the receiver: what `receive` hands out byte by byte, and the record after it; whether the bytes in one read or cut into two give
// the same; and what the frame writer leaves in its room.
//
// A line of standard input has fields with | between:
//   LABEL|c|BYTES                  a capture, to a fresh record
//   LABEL|r|PROGRESS|STORE|BYTES   to a record: whether it is inside a frame, escaped, low, got, size and count, with spaces between;
//                                  and the bytes of its store
//   LABEL|w|TYPE|PAYLOAD|ROOM      the frame writer, with so many bytes EE for its room
#![tactic(auto)]

ghost use Rattle.std.specs.Prelude.{◌≤◌, ◌<◌, length};

use console::front;
use line::{Event, Progress, Receiver};
use std::io;
use text::reading;
use wire::Refusal;

// The record after some bytes, and the place behind the text of their events.
#[derive(Clone, Copy)]
struct Run {
    receiver: Receiver,
    at: usize,
}

// Bytes as ` 7e*3 5c*1`.
fn runs(out: &mut [u8], at: usize, s: &[u8]) -> usize {
    let mut behind = at;
    for run in s.chunk_by(|a, b| a == b) {
        let space = text::put(out, behind, b" ");
        let byte = text::hex(out, space, front(run, 1));
        behind = text::named(out, byte, b"*", run.len() as u64);
    }
    behind
}

// ` frame MAJOR MINOR TYPE LENGTH` and the payload, or ` refused N PLACE`.
fn event(out: &mut [u8], at: usize, e: Option<Event>, store: &[u8; 512]) -> usize {
    let behind = listing::event_numbers(out, at, e);
    match e {
        Some(Event::Frame { len, .. }) => runs(out, behind, line::frame_payload(store, len)),
        None | Some(Event::Refused { .. }) => behind,
    }
}

// The bytes one by one.
fn one_by_one(start: Receiver, s: &[u8], out: &mut [u8]) -> Run {
    let mut receiver = start;
    let mut at = 0;
    for b in s {
        let e = line::receive(&mut receiver, *b);
        at = event(out, at, e, &receiver.store);
    }
    Run { receiver, at }
}

// The bytes of one read.
fn one_read(start: Run, s: &[u8], out: &mut [u8]) -> Run {
    let Receiver {
        mut progress,
        mut store,
    } = start.receiver;
    let mut at = start.at;
    let mut i = 0;
    // No `for`: a turn takes the bytes up to the next event.
    while i < s.len() {
        let a = line::advance(progress, &mut store, s, i);
        at = event(out, at, a.event, &store);
        progress = a.progress;
        i = a.used;
    }
    Run {
        receiver: Receiver { progress, store },
        at,
    }
}

// Whether the bytes in two reads give other events or leave another record.
fn differs(receiver: Receiver, s: &[u8], cut: usize, whole: &[u8]) -> bool
    requires { cut ≤ length s.now }
{
    let mut out = [0u8; 8192];
    let (before, behind) = s.split_at(cut);
    let first = one_read(Run { receiver, at: 0 }, before, &mut out);
    let second = one_read(first, behind, &mut out);
    let n = record(&mut out, second.at, second.receiver);
    !check::same(front(&out, n), whole)
}

// How many cuts give another text than the bytes one by one: events, and the record after them; one read is a cut before the first.
fn changed(receiver: Receiver, s: &[u8], whole: &[u8]) -> u64 {
    (0..s.len())
        .filter(|cut| differs(receiver, s, *cut, whole))
        .count() as u64
}

// `; record INSIDE ESCAPED LOW GOT SIZE COUNT; store` and the store's bytes.
fn record(out: &mut [u8], at: usize, r: Receiver) -> usize {
    let p = r.progress;
    let numbers = [
        u64::from(p.inside),
        u64::from(p.escaped),
        u64::from(p.low),
        p.got as u64,
        p.size as u64,
        p.count as u64,
    ];
    let name = text::put(out, at, b"; record");
    let behind = text::decimals(out, name, &numbers);
    let named = text::put(out, behind, b"; store");
    runs(out, named, &r.store)
}

// A capture, to a record: the events, the cuts, and the record after it.
fn capture(out: &mut [u8], at: usize, start: Receiver, s: &[u8]) -> usize {
    let mut whole = [0u8; 8192];
    let run = one_by_one(start, s, &mut whole);
    let events = run.at;
    let receiver = run.receiver;
    let end = record(&mut whole, events, receiver);
    let behind = text::put(out, at, front(&whole, events));
    let cuts = changed(start, s, front(&whole, end));
    let after = text::named(out, behind, b"; changed by cuts ", cuts);
    record(out, after, receiver)
}

fn number(line: &[u8], sep: u8, k: usize) -> usize {
    reading::number(reading::field(line, sep, k)) as usize
}

// The record that a line names.
fn named_record(line: &[u8]) -> Receiver {
    let p = reading::field(line, b'|', 2);
    let mut store = [0u8; 512];
    reading::bytes(&mut store, 0, reading::field(line, b'|', 3));
    Receiver {
        progress: Progress {
            inside: number(p, b' ', 0) == 1,
            escaped: number(p, b' ', 1) == 1,
            low: (number(p, b' ', 2) % 256) as u8,
            got: number(p, b' ', 3),
            size: number(p, b' ', 4),
            count: number(p, b' ', 5),
        },
        store,
    }
}

fn answer(out: &mut [u8], at: usize, written: Result<usize, Refusal>) -> usize {
    match written {
        Ok(n) => text::named(out, at, b" wrote ", n as u64),
        Err(refusal) => text::named(out, at, b" refused ", u64::from(refusal.number())),
    }
}

// What the frame writer answers, and all of its room afterwards.
fn written(out: &mut [u8], at: usize, wrapper: u8, payload: &[u8], room: &mut [u8]) -> usize {
    let behind = answer(out, at, frame::write_frame(wrapper, payload, room));
    let name = text::put(out, behind, b"; room");
    runs(out, name, room)
}

fn writer(out: &mut [u8], at: usize, line: &[u8]) -> usize {
    let mut payload = [0u8; 512];
    let n = reading::bytes(&mut payload, 0, reading::field(line, b'|', 3));
    let wrapper = (number(line, b'|', 2) % 256) as u8;
    let mut room = [0xEEu8; 1100];
    let lent = number(line, b'|', 4) % 1101;
    written(out, at, wrapper, front(&payload, n), &mut room[..lent])
}

// What comes of a line's case.
fn outcome(out: &mut [u8], at: usize, line: &[u8]) -> usize {
    let mut bytes = [0u8; 2048];
    match wire::byte_at(reading::field(line, b'|', 1), 0) {
        b'c' => {
            let n = reading::bytes(&mut bytes, 0, reading::field(line, b'|', 2));
            capture(out, at, line::fresh(), front(&bytes, n))
        }
        b'r' => {
            let n = reading::bytes(&mut bytes, 0, reading::field(line, b'|', 4));
            capture(out, at, named_record(line), front(&bytes, n))
        }
        b'w' => writer(out, at, line),
        _ => text::put(out, at, b" unreadable"),
    }
}

// One line of the output.
fn case<R: Print>(rt: &R, line: &[u8]) -> io::Result<()> {
    let mut out = [0u8; 8192];
    let label = text::put(&mut out, 0, reading::field(line, b'|', 0));
    let start = text::put(&mut out, label, b":");
    let end = outcome(&mut out, start, line);
    let all = text::put(&mut out, end, b"\n");
    rt.write_all(front(&out, all))
}

fn main(rt: HostRuntime) -> io::Result<()> {
    console::for_each_line(&rt, &mut console::large_buffer(), |line| case(&rt, line))
}
