// Every refusal of the opener on both routes with its reply, the order of two broken rules, what is accepted with its fields and payload, the session
// and the whole work buffer afterwards. The cases are the lines of standard input; a line that starts with # is a comment. A case has these fields, with
// | between:
//
// 0 label, with its colon
// 1 route, mode, setting: u a frame or c a characteristic packet; n normal or s setup mode; for a frame r where encryption is required or - where not
// 2 keys held as admin, member, basic and setup key, AMBS, with - for one that is absent
// 3 for a frame the session: nonce, minutes, set time, 1 or 0 for held or not; for a packet the connection: nonce, validation key, 1 or 0; behind either,
//   unless its memory is empty, the memory's count and its eight places, newest first, each as it stands in a packet (010203), but for zero places at the
//   end
// 4 for a frame the time now
// 5 for a frame major, minor and wrapper type, a byte each
// 6 length of the work buffer, which is full of EE
// 7 key and session nonce under which, with packet nonce 01 02 03, it is enciphered here from its fifth byte on; = where it is given as it stands
// 8 the payload or packet: packet nonce 01 02 03, key ID or level, and its blocks as they are to be deciphered, right or wrong; or as it stands
//
// Bytes are in base 16, with + between two pieces; 00*6 is six times 00. What comes of a case is one line: the label; the content and payload accepted, or
// the refusal and its reply; the session as field 3 has it, or that it is kept; the work buffer.
#![tactic(auto)]

mod answer;
mod given;

use aes::Small;
use console::front;
use std::io;
use text::reading;

// A frame's case: the answer, the session after it, the work buffer.
fn frame(line: &[u8], payload: &[u8], out: &mut [u8], at: usize, work: &mut [u8]) -> usize {
    let mut head = [0u8; 3];
    reading::bytes(&mut head, 0, reading::field(line, b'|', 5));
    let opened = bridge::uart::open::<Small>(
        head[0],
        head[1],
        head[2],
        payload,
        given::context(line),
        work,
    );
    let content = content_text::message;
    let told = answer::opened(out, at, opened.answer, content, payload, work);
    let after = answer::session(out, told, reading::field(line, b'|', 3), opened.session);
    answer::work(out, after, work)
}

// A characteristic packet's case.
fn packet(line: &[u8], packet: &[u8], out: &mut [u8], at: usize, work: &mut [u8]) -> usize {
    let opened = bridge::characteristic::open::<Small>(packet, given::link(line), work);
    let content = content_text::command;
    let told = answer::opened(out, at, opened.answer, content, packet, work);
    let after = answer::connection(out, told, reading::field(line, b'|', 3), opened.connection);
    answer::work(out, after, work)
}

// The case by its route.
fn routed(line: &[u8], payload: &[u8], out: &mut [u8], at: usize, work: &mut [u8]) -> usize {
    match given::letter(line, 1, 0) {
        b'c' => packet(line, payload, out, at, work),
        _ => frame(line, payload, out, at, work),
    }
}

// The case with the last bytes of a buffer to work in: where its line ends.
fn opened(line: &[u8], out: &mut [u8], at: usize, work: &mut [u8], room: usize) -> usize {
    if work.len() < room {
        return at;
    }
    let from = work.len() - room;
    let mut payload = [0u8; 520];
    let len = given::payload(line, &mut payload);
    routed(line, front(&payload, len), out, at, &mut work[from..])
}

fn case<R: Print>(rt: &R, line: &[u8]) -> io::Result<()> {
    if wire::byte_at(line, 0) == b'#' {
        return Ok(());
    }
    let mut work = [0xEEu8; 512];
    let mut out = [0u8; 4096];
    let label = text::put(&mut out, 0, reading::field(line, b'|', 0));
    let room = reading::number(reading::field(line, b'|', 6)) as usize;
    let told = opened(line, &mut out, label, &mut work, room);
    let len = text::put(&mut out, told, b"\n");
    rt.write_all(front(&out, len))
}

// The lines, the last also where no newline ends it; `console::for_each_line` leaves that one out.
fn cases<R: Print>(rt: &R, s: &[u8]) -> io::Result<()> {
    for line in s.split_inclusive(|b| *b == b'\n') {
        case(rt, line.strip_suffix(b"\n").unwrap_or(line))?;
    }
    Ok(())
}

fn main(rt: HostRuntime) -> io::Result<()> {
    let mut input = [0u8; 131072];
    let len = console::read_full(&rt, &mut input)?;
    cases(&rt, front(&input, len))
}
