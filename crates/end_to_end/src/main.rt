// A list of messages, plain and sealed, end to end: sealed, framed, with noise between, received byte by byte by a receiver that is
// caught inside an unfinished frame, and opened in order, each with the session that the last one left. Then packets of a phone, sealed and
// opened at each level, each with the connection session that the last one left. Some are sent again: a packet nonce that is remembered gets 28.
// Standard input lists them, an item each: NAME|KIND|NUMBERS|BYTES.
// Kinds: n bytes as they are, p a plain message, s a message sealed for the first or the second session under a packet nonce's number;
// r the line is received; c a phone's packet with its level, mode and number.
#![tactic(auto)]

mod opening;
mod phone;

use access::Mode;
use aes::Small;
use console::front;
use session::{Connection, Keys};
use std::io;
use text::reading;
use wire::Refusal;

// Its bytes ask for escapes.
const FIRST: [u8; 5] = [0x7E, 0x5C, 1, 2, 3];

const SECOND: [u8; 5] = [0xA1, 0xA2, 0xA3, 0xA4, 0xA5];

// Where the line ends, and the phone's connection session.
#[derive(Clone, Copy)]
struct After {
    at: usize,
    connection: Connection,
}

fn main(rt: HostRuntime) -> io::Result<()> {
    let mut line = [0u8; 8192];
    let mut after = After {
        at: 0,
        connection: phone::connection(),
    };
    console::for_each_line(&rt, &mut [0u8; 4096], |s| {
        after = item(&rt, &mut line, after, s)?;
        Ok(())
    })?;
    rt.write_all(b"end\n")
}

fn item<R: Print>(rt: &R, line: &mut [u8], before: After, s: &[u8]) -> io::Result<After> {
    let mut room = [0u8; 512];
    let n = reading::bytes(&mut room, 0, reading::field(s, b'|', 3));
    let bytes = front(&room, n);
    let v = reading::field(s, b'|', 2);
    let kind = wire::byte_at(reading::field(s, b'|', 1), 0);
    let mut after = before;
    if kind == b'c' {
        after.connection = phone::packet(rt, v, bytes, before.connection)?;
    } else {
        after.at = on_line(rt, line, before.at, kind, v, bytes)?;
    }
    Ok(after)
}

// What an item puts on the line from a place on; the place behind it.
fn on_line<R: Print>(
    rt: &R,
    line: &mut [u8],
    at: usize,
    kind: u8,
    v: &[u8],
    bytes: &[u8],
) -> io::Result<usize> {
    match kind {
        b'n' => Ok(text::put(line, at, bytes)),
        b'p' => framed(rt, line, at, 0, bytes),
        b's' => sealed(rt, line, at, v, bytes),
        b'r' => {
            opening::receive(rt, front(line, at))?;
            Ok(at)
        }
        _ => Ok(at),
    }
}

// The packet nonce that begins with a number; its other bytes ask for escapes.
fn nonce(v: &[u8]) -> [u8; 3] {
    [(reading::number(v) % 256) as u8, 0x7E, 0x5C]
}

// What a writer refuses is printed, and leaves the line as it is.
fn refused<R: Print>(rt: &R, at: usize, refusal: Refusal) -> io::Result<usize> {
    let mut out = [0u8; 64];
    let end = text::named(&mut out, 0, b"writer refused ", refusal.number() as u64);
    opening::end_line(rt, &mut out, end)?;
    Ok(at)
}

fn framed<R: Print>(
    rt: &R,
    line: &mut [u8],
    at: usize,
    wrapper: u8,
    payload: &[u8],
) -> io::Result<usize> {
    let mut room = [0u8; 1100];
    match frame::write_frame(wrapper, payload, &mut room) {
        Ok(n) => Ok(text::put(line, at, front(&room, n))),
        Err(refusal) => refused(rt, at, refusal),
    }
}

// The admin key alone is held.
fn keys() -> Keys {
    Keys {
        admin: Some(*b"\x10\x11\x12\x13\x14\x15\x16\x17\x18\x19\x1a\x1b\x1c\x1d\x1e\x1f"),
        member: None,
        basic: None,
        setup: None,
    }
}

// The nonces of two sessions.
fn session_of(number: u64) -> [u8; 5] {
    if number == 1 { FIRST } else { SECOND }
}

fn sealed<R: Print>(
    rt: &R,
    line: &mut [u8],
    at: usize,
    v: &[u8],
    message: &[u8],
) -> io::Result<usize> {
    let session = session_of(reading::number(v));
    let nonce = nonce(reading::field(v, b' ', 1));
    let mut room = [0u8; 512];
    match envelope::seal::<Small>(keys(), Mode::Normal, nonce, session, message, &mut room) {
        Ok(n) => framed(rt, line, at, 128, front(&room, n)),
        Err(refusal) => refused(rt, at, refusal),
    }
}
