// Seals messages and control packets of several lengths, prints the answer and the whole room afterwards in base 16, and opens each image again. A line of
// standard input is what is sealed, the mode, the level's number, how many bytes, how many bytes EE are lent as room, and the keys held, AMBS with - for one
// that is absent. The stored output comes from another implementation of AES: bench/seal/vectors.py.
#![tactic(auto)]

ghost use Rattle.std.specs.Prelude.{◌≡◌, ◌≤◌, ◌<◌, length};

use access::{Level, Mode};
use aes::Small;
use console::front;
use session::Keys;
use std::io;
use text::reading;
use wire::Refusal;

const SESSION_NONCE: [u8; 5] = [0x51, 0x52, 0x53, 0x54, 0x55];

const VALIDATION: [u8; 4] = [0xD0, 0xD1, 0xD2, 0xD3];

#[derive(Clone, Copy)]
struct Case {
    packet: bool,
    mode: Mode,
    level: Level,
    size: usize,
    room: usize,
    keys: Keys,
}

fn mode_of(s: &[u8]) -> Mode {
    match s {
        b"setup" => Mode::Setup,
        _ => Mode::Normal,
    }
}

fn level_of(s: &[u8]) -> Level {
    Level::try_from((reading::number(s) % 256) as u8).unwrap_or(Level::Admin)
}

// A key, where its letter is there.
fn key(letters: &[u8], k: usize, bytes: &[u8; 16]) -> Option<[u8; 16]> {
    if wire::byte_at(letters, k) == b'-' {
        return None;
    }
    Some(*bytes)
}

// Keys by letters, each of its own bytes.
fn keys_of(s: &[u8]) -> Keys {
    Keys {
        admin: key(
            s,
            0,
            b"\x10\x11\x12\x13\x14\x15\x16\x17\x18\x19\x1a\x1b\x1c\x1d\x1e\x1f",
        ),
        member: key(
            s,
            1,
            b"\x30\x31\x32\x33\x34\x35\x36\x37\x38\x39\x3a\x3b\x3c\x3d\x3e\x3f",
        ),
        basic: key(
            s,
            2,
            b"\x50\x51\x52\x53\x54\x55\x56\x57\x58\x59\x5a\x5b\x5c\x5d\x5e\x5f",
        ),
        setup: key(
            s,
            3,
            b"\x70\x71\x72\x73\x74\x75\x76\x77\x78\x79\x7a\x7b\x7c\x7d\x7e\x7f",
        ),
    }
}

fn case_of(line: &[u8]) -> Case
    ensures { (result.size < 1000) × (result.room ≤ 512) }
{
    let size = reading::number(reading::field(line, b' ', 3)) % 1000;
    let room = reading::number(reading::field(line, b' ', 4)) % 513;
    Case {
        packet: matches!(reading::field(line, b' ', 0), b"packet"),
        mode: mode_of(reading::field(line, b' ', 1)),
        level: level_of(reading::field(line, b' ', 2)),
        size: size as usize,
        room: room as usize,
        keys: keys_of(reading::field(line, b' ', 5)),
    }
}

// Byte i is 7 i + size; a packet has its size field.
fn filled(c: Case) -> [u8; 493]
    requires { c.size < 1000 }
    ensures { 493 ≡ length result }
{
    let size = c.size;
    let mut s = [0u8; 493];
    for (i, b) in s.iter_mut().enumerate() {
        *b = ((7 * (i % 256) + size) % 256) as u8;
    }
    if c.packet && 5 <= size {
        s[3] = ((size - 5) % 256) as u8;
        s[4] = ((size - 5) / 256) as u8;
    }
    s
}

fn seal(c: Case, content: &[u8], out: &mut [u8]) -> Result<usize, Refusal> {
    let n = content.len();
    let nonce = [(n % 256) as u8, (n / 256 % 256) as u8, 0xA5];
    if c.packet {
        return envelope::seal_characteristic::<Small>(
            c.keys,
            c.mode,
            c.level,
            nonce,
            SESSION_NONCE,
            VALIDATION,
            content,
            out,
        );
    }
    envelope::seal::<Small>(c.keys, c.mode, nonce, SESSION_NONCE, content, out)
}

// The blocks of an image deciphered, how many bytes.
fn deciphered(c: Case, image: &[u8], work: &mut [u8]) -> Result<usize, Refusal> {
    envelope::judge_length(image)?;
    envelope::judge_room(image, work.len())?;
    let keys = c.keys;
    let key = keys.serving(c.mode, c.level).ok_or(Refusal::NoKey)?;
    envelope::decipher::<Small>(key, SESSION_NONCE, image, work)
}

// Whether an image is opened, and holds the content.
fn opens(c: Case, image: &[u8], content: &[u8]) -> bool {
    let mut work = [0xFFu8; 496];
    let len = deciphered(c, image, &mut work).unwrap_or(0);
    let plain = front(&work, len);
    if c.packet {
        return envelope::judge_characteristic(VALIDATION, plain).is_ok()
            && envelope::packet_in(plain) == content;
    }
    envelope::judge_text(plain).is_ok() && envelope::message_in(plain) == content
}

fn answer(out: &mut [u8], at: usize, written: Result<usize, Refusal>) -> usize {
    match written {
        Ok(len) => text::named(out, at, b": wrote ", len as u64),
        Err(refusal) => text::named(out, at, b": refused ", refusal.number() as u64),
    }
}

// `NAME LENGTH: ` and the answer, then all of the room.
fn show(
    out: &mut [u8],
    name: &[u8],
    n: usize,
    room: &[u8],
    written: Result<usize, Refusal>,
) -> usize {
    let a = text::put(out, 0, name);
    let b = text::named(out, a, b" ", n as u64);
    let c = answer(out, b, written);
    let d = text::put(out, c, b", room ");
    text::hex(out, d, room)
}

fn run(line: &[u8], image: &mut [u8], out: &mut [u8]) -> usize
    requires { 512 ≤ length image.old }
{
    let c = case_of(line);
    let bytes = filled(c);
    let content = front(&bytes, c.size);
    let written = seal(c, content, &mut image[..c.room]);
    let at = show(
        out,
        reading::field(line, b' ', 0),
        c.size,
        front(image, c.room),
        written,
    );
    if opens(c, front(image, written.unwrap_or(0)), content) {
        return text::put(out, at, b", opened\n");
    }
    text::put(out, at, b"\n")
}

// One line of the output.
fn print<R: Print>(rt: &R, line: &[u8]) -> io::Result<()> {
    let mut image = [0xEEu8; 512];
    let mut out = [0u8; 2048];
    let len = run(line, &mut image, &mut out);
    rt.write_all(front(&out, len))
}

fn main(rt: HostRuntime) -> io::Result<()> {
    console::for_each_line(&rt, &mut [0u8; 2048], |line| print(&rt, line))
}
