// The capture decoder as a program: a line of text for each event, and what reads standard input and prints them.
#![tactic(auto)]

ghost use Rattle.std.specs.Prelude.{◌≡◌, ◌+◌, ◌≤◌, length, IfOk};
ghost use Rattle.text.specs.Puts.{Puts};
ghost use Rattle.decoding.specs.Decoding as specs;

use line::Event;
use std::io;
use wire::Part;

// Behind a refusal's number and place, when it is given: the words of document 01's table; nothing where no byte of a line causes it.
#[tactic(auto, using(text::proofs::Puts::puts_none), unfolding(crate::specs::Decoding::reason))]
fn reason(out: &mut [u8], at: usize, number: u8) -> usize
    ensures { Puts (specs.reason number) at out.old result out.new }
{
    match number {
        1 => text::put(out, at, b": 7E inside an unfinished frame"),
        2 => text::put(out, at, b": 5C followed by other than 3E, 1C or 7E"),
        3 => text::put(out, at, b": size below 5 or above 512"),
        4 => text::put(out, at, b": CRC differs"),
        _ => at,
    }
}

// Behind a frame's type and length: its payload in base 16, or the first 32 bytes of it and `..`.
#[tactic(auto, using(text::proofs::Puts::puts_none, text::proofs::Puts::puts_then), unfolding(crate::specs::Decoding::payload_text))]
fn payload_text(out: &mut [u8], at: usize, payload: &[u8]) -> usize
    ensures { Puts (specs.payload_text payload.now) at out.old result out.new }
{
    if payload.is_empty() {
        return at;
    }
    let behind = text::put(out, at, b": ");
    if payload.len() <= 32 {
        return text::hex(out, behind, payload);
    }
    let (front, _) = payload.split_at(32);
    let cut = text::hex(out, behind, front);
    text::put(out, cut, b"..")
}

// What comes behind an event's words.
fn details(out: &mut [u8], at: usize, e: Option<Event>, payload: &[u8]) -> usize
    ensures { Puts (specs.details e payload.now) at out.old result out.new }
{
    match e {
        None => at,
        Some(Event::Frame { .. }) => payload_text(out, at, payload),
        Some(Event::Refused { refusal, .. }) => reason(out, at, refusal.number()),
    }
}

// An event's line: put into `out` from `at` on; the answer is where it ends.
pub fn event_line(
    out: &mut [u8],
    at: usize,
    offset: usize,
    e: Option<Event>,
    payload: &[u8],
) -> usize
    ensures { Puts (specs.event_line offset e payload.now) at out.old result out.new }
{
    let a = text::decimal(out, at, offset as u64);
    let b = text::put(out, a, b" ");
    let c = listing::event_words(out, b, e);
    let d = details(out, c, e, payload);
    text::put(out, d, b"\n")
}

// A refusal's line, whatever its number: also one that no refusal has.
pub fn refused_line(out: &mut [u8], at: usize, offset: usize, number: u8, place: usize) -> usize
    ensures { Puts (specs.refused_line offset number place) at out.old result out.new }
{
    let a = text::decimal(out, at, offset as u64);
    let b = text::put(out, a, b" ");
    let c = listing::refused_words(out, b, number, place);
    let d = reason(out, c, number);
    text::put(out, d, b"\n")
}

// An entry's line is printed; the answer is where the next payload starts.
fn print_line<R: Print>(rt: &R, entry: u64, payloads: &[u8], start: usize) -> io::Result<usize>
    requires { start ≤ 4294967296 }
    ensures { IfOk result (λ n. n ≤ start + 65535) }
{
    let e = capture::event_of(entry);
    let len = capture::length_of(entry);
    let payload = wire::part_of(payloads, Part { start, len });
    let mut out = [0u8; 160];
    let n = event_line(&mut out, 0, capture::offset_of(entry), e, payload);
    rt.write_all(wire::part_of(&out, Part { start: 0, len: n }))?;
    Ok(start + len)
}

// The lines of the first entries are printed.
fn print_lines<R: Print>(
    rt: &R,
    list: &[u64; 65536],
    count: usize,
    payloads: &[u8],
) -> io::Result<()> {
    let mut start = 0;
    for entry in list.iter().take(count) {
        start = print_line(rt, *entry, payloads, start)?;
    }
    Ok(())
}

// 65,536 entries: no capture has more events.
fn entries_room() -> [u64; 65536]
    ensures { 65536 ≡ length result }
{
    [0; 65536]
}

// Room for a byte more than a capture has that can be decoded.
fn capture_room() -> [u8; 65537]
    ensures { 65537 ≡ length result }
{
    [0; 65537]
}

// A capture is decoded and its events printed, then `end`. 17 is the only refusal that can come: the list and the buffer are as long as any
// capture that is decoded.
fn print_capture<R: Print + Eprint>(rt: &R, capture: &[u8]) -> io::Result<()> {
    let mut list = entries_room();
    let mut payloads = console::large_buffer();
    match capture::decode(capture, &mut list, &mut payloads) {
        Ok(counts) => {
            print_lines(rt, &list, counts.entries, &payloads)?;
            rt.write_all(b"end\n")
        }
        Err(_) => {
            eprintln!(rt;
                "capture_decoder: more than 65536 bytes; the line lister, ./list, takes any length"
            )
        }
    }
}

// Standard input, a whole capture, is decoded.
pub fn decode_all<R: Input + Print + Eprint>(rt: &R) -> io::Result<()> {
    let mut buf = capture_room();
    let n = console::read_full(rt, &mut buf)?;
    print_capture(rt, &buf[..n])
}
