// What a case's line gives to the opener.
use access::Mode;
use bridge::{Context, Link};
use console::front;
use session::{Connection, Keys, Session};
use text::reading;
use units::{Minutes, Seconds};
use wire::Part;

// The letter at a place of a field.
pub fn letter(line: &[u8], field: usize, at: usize) -> u8 {
    wire::byte_at(reading::field(line, b'|', field), at)
}

// The key that is made of a letter.
fn key_bytes(letter: u8) -> [u8; 16] {
    [letter, 1, 2, 3, 4, 5, 6, 7, 8, 9, 10, 11, 12, 13, 14, 15]
}

// The key of a letter, which is not held where it is -.
fn key(letter: u8) -> Option<[u8; 16]> {
    match letter {
        b'-' => None,
        _ => Some(key_bytes(letter)),
    }
}

fn keys(line: &[u8]) -> Keys {
    Keys {
        admin: key(letter(line, 2, 0)),
        member: key(letter(line, 2, 1)),
        basic: key(letter(line, 2, 2)),
        setup: key(letter(line, 2, 3)),
    }
}

fn mode(line: &[u8]) -> Mode {
    match letter(line, 1, 1) {
        b's' => Mode::Setup,
        _ => Mode::Normal,
    }
}

fn nonce(s: &[u8]) -> [u8; 5] {
    let mut bytes = [0u8; 5];
    reading::bytes(&mut bytes, 0, s);
    bytes
}

fn session(s: &[u8]) -> Session {
    Session {
        held: reading::number(reading::field(s, b' ', 3)) == 1,
        nonce: nonce(reading::field(s, b' ', 0)),
        timeout: Minutes(reading::number(reading::field(s, b' ', 1))),
        since: Seconds(reading::number(reading::field(s, b' ', 2))),
        memory: session_text::memory_in(s, 4),
    }
}

pub fn context(line: &[u8]) -> Context {
    Context {
        session: session(reading::field(line, b'|', 3)),
        time: Seconds(reading::number(reading::field(line, b'|', 4))),
        keys: keys(line),
        mode: mode(line),
        required: letter(line, 1, 2) == b'r',
    }
}

fn connection(s: &[u8]) -> Connection {
    let mut validation = [0u8; 4];
    reading::bytes(&mut validation, 0, reading::field(s, b' ', 1));
    Connection {
        held: reading::number(reading::field(s, b' ', 2)) == 1,
        nonce: nonce(reading::field(s, b' ', 0)),
        validation,
        memory: session_text::memory_in(s, 3),
    }
}

pub fn link(line: &[u8]) -> Link {
    Link {
        connection: connection(reading::field(line, b'|', 3)),
        keys: keys(line),
        mode: mode(line),
    }
}

// The bytes behind the fourth, enciphered.
fn encipher(seal: &[u8], room: &mut [u8], len: usize) {
    let mut body = [0u8; 512];
    // What does not fit is not enciphered.
    let _ = aes::apply_ctr(
        key_bytes(wire::byte_at(seal, 0)),
        [1, 2, 3],
        nonce(reading::field(seal, b' ', 1)),
        wire::part_of(room, Part { start: 4, len }),
        &mut body,
    );
    text::put(room, 4, front(&body, len));
}

// The payload of a frame, or a packet: its length in a room.
pub fn payload(line: &[u8], room: &mut [u8]) -> usize {
    let len = reading::bytes(room, 0, reading::field(line, b'|', 8));
    let seal = reading::field(line, b'|', 7);
    if wire::byte_at(seal, 0) != b'=' && 4 <= len {
        encipher(seal, room, len - 4);
    }
    len
}
