// Parts through the assembler, and messages through the cutter.
//
// A line of standard input has fields with | between:
//   LABEL|a|RECORD|STORE|PART|..   parts to a record: how many parts and bytes it has gathered and whether it is discarding, with spaces between; the bytes
//                                  of its store; the parts
//   LABEL|c|SIZE|MESSAGE|ROOM      the cutter, with so many bytes EE for its room; what it writes goes, SIZE + 1 bytes at a time, to a fresh record
// Bytes are listed as 0709+00*96. An answer is printed as . where more is to come, as the message, or as a refusal.
#![tactic(auto)]

ghost use Rattle.std.specs.Prelude.{◌≤◌, ◌<◌, length};

use console::front;
use multipart::Progress;
use std::io;
use text::reading;
use wire::Refusal;

// How many bytes stand before the ones at the end that are all the same.
fn before_run(s: &[u8]) -> usize
    requires { 0 < length s.now }
    ensures { result < length s.now }
{
    let last = s[s.len() - 1];
    s.iter().rposition(|b| *b != last).map_or(0, |k| k + 1)
}

// Bytes as ` 0102+ee*498`: those before the ones at the end that are all the same, and these with their number.
fn listed(out: &mut [u8], at: usize, s: &[u8]) -> usize {
    if s.len() == 0 {
        return at;
    }
    let n = before_run(s);
    let space = text::put(out, at, b" ");
    let rest = s.len() - n;
    if n == 0 {
        return run(out, space, s[n], rest);
    }
    let behind = text::hex(out, space, front(s, n));
    let plus = text::put(out, behind, b"+");
    run(out, plus, s[n], rest)
}

// One byte and how often it stands, as ee*498.
fn run(out: &mut [u8], at: usize, byte: u8, n: usize) -> usize {
    let behind = text::hex(out, at, &[byte]);
    text::named(out, behind, b"*", n as u64)
}

fn answer(
    out: &mut [u8],
    at: usize,
    given: Result<Option<usize>, Refusal>,
    store: &[u8; 500],
) -> usize {
    match given {
        Ok(None) => text::put(out, at, b" ."),
        Ok(Some(n)) => {
            let behind = text::named(out, at, b" message ", n as u64);
            listed(out, behind, multipart::message(store, n))
        }
        Err(refusal) => text::named(out, at, b" refused ", refusal.number() as u64),
    }
}

// `; record PARTS BYTES DISCARDING; store` and the store's bytes.
fn record(out: &mut [u8], at: usize, p: Progress, store: &[u8; 500]) -> usize {
    let numbers = [p.parts as u64, p.bytes as u64, p.discarding as u64];
    let name = text::put(out, at, b"; record");
    let behind = text::decimals(out, name, &numbers);
    let named = text::put(out, behind, b"; store");
    listed(out, named, store)
}

fn number(line: &[u8], sep: u8, k: usize) -> usize {
    reading::number(reading::field(line, sep, k)) as usize
}

// The progress that a line names.
fn named_progress(line: &[u8]) -> Progress {
    let p = reading::field(line, b'|', 2);
    Progress {
        parts: number(p, b' ', 0),
        bytes: number(p, b' ', 1),
        discarding: number(p, b' ', 2) == 1,
    }
}

// A line's parts to its record: the answers, and the record after them.
fn assemble(out: &mut [u8], at: usize, line: &[u8]) -> usize {
    let mut store = [0u8; 500];
    reading::bytes(&mut store, 0, reading::field(line, b'|', 3));
    let mut part = [0u8; 600];
    let mut progress = named_progress(line);
    let mut behind = at;
    for field in line.split(|b| *b == b'|').skip(4) {
        let len = reading::bytes(&mut part, 0, field);
        let taken = multipart::take_part(progress, &mut store, front(&part, len));
        progress = taken.progress;
        behind = answer(out, behind, taken.answer, &store);
    }
    record(out, behind, progress, &store)
}

// Parts that stand one behind the other, to a fresh record: the answers.
fn assembled(out: &mut [u8], at: usize, size: usize, image: &[u8]) -> usize {
    let mut assembler = multipart::fresh();
    let mut behind = text::put(out, at, b"; assembled");
    for part in image.chunks(size.saturating_add(1)) {
        let step = assembler.take_part(part);
        assembler = step.assembler;
        behind = answer(out, behind, step.answer, &assembler.store);
    }
    behind
}

// `; room` and all of the room.
fn room(out: &mut [u8], at: usize, s: &[u8]) -> usize {
    let name = text::put(out, at, b"; room");
    listed(out, name, s)
}

// What the cutter answers, all of its room afterwards, and what the assembler gives of what it wrote.
fn cut(out: &mut [u8], at: usize, size: usize, message: &[u8], lent: &mut [u8]) -> usize {
    match multipart::cut(message, size, lent) {
        Ok(n) => {
            let behind = text::named(out, at, b" wrote ", n as u64);
            let named = room(out, behind, lent);
            assembled(out, named, size, front(lent, n))
        }
        Err(refusal) => {
            let behind = text::named(out, at, b" refused ", refusal.number() as u64);
            room(out, behind, lent)
        }
    }
}

// The cutter, with the room that a line names.
fn cutter(out: &mut [u8], at: usize, line: &[u8]) -> usize {
    let mut message = [0u8; 600];
    let n = reading::bytes(&mut message, 0, reading::field(line, b'|', 3));
    let mut lent = [0xEEu8; 800];
    let len = number(line, b'|', 4) % 801;
    cut(
        out,
        at,
        number(line, b'|', 2),
        front(&message, n),
        &mut lent[..len],
    )
}

// What comes of a line's case.
fn outcome(out: &mut [u8], at: usize, line: &[u8]) -> usize {
    match wire::byte_at(reading::field(line, b'|', 1), 0) {
        b'a' => assemble(out, at, line),
        b'c' => cutter(out, at, line),
        _ => text::put(out, at, b" unreadable"),
    }
}

// One line of the output.
fn case<R: Print>(rt: &R, line: &[u8]) -> io::Result<()> {
    let mut out = [0u8; 8192];
    let label = text::put(&mut out, 0, reading::field(line, b'|', 0));
    let start = text::put(&mut out, label, b":");
    let end = outcome(&mut out, start, line);
    let all = text::put(&mut out, end, b"\n");
    rt.write_all(front(&out, all))
}

fn main(rt: HostRuntime) -> io::Result<()> {
    console::for_each_line(&rt, &mut console::large_buffer(), |line| case(&rt, line))
}
