// Reads and writes session data, a case for each line of standard input, whose fields stand between bars: `read`, a name, the mode, the keys held (AMBS with
// - for one that is absent), `held` or `none`, nonce and validation key of the connection that was there, the block; or `write`, a name, mode, keys, how many
// bytes EE are lent as room, nonce and validation key. Behind a connection's validation key, unless its memory is empty, stand the memory's count and its
// eight places, but for zero places at the end. Prints the answer and the connection after it, or all of the room and what was written read back.
// The stored output comes from another implementation of AES: bench/session_data/outcomes.py.
#![tactic(auto)]

ghost use Rattle.std.specs.Prelude.{◌≤◌, length};

use access::Mode;
use console::front;
use session::{Connection, Keys};
use session_data::DataRead;
use std::io;
use text::reading;
use wire::Refusal;

// A field of a line.
fn field(line: &[u8], k: usize) -> &[u8] {
    reading::field(line, b'|', k)
}

fn mode_of(line: &[u8]) -> Mode {
    match field(line, 2) {
        b"setup" => Mode::Setup,
        _ => Mode::Normal,
    }
}

// A key by its bytes, where its letter is there.
fn key(letters: &[u8], k: usize, listed: &[u8]) -> Option<[u8; 16]> {
    if wire::byte_at(letters, k) == b'-' {
        return None;
    }
    let mut bytes = [0u8; 16];
    reading::bytes(&mut bytes, 0, listed);
    Some(bytes)
}

// Keys by letters, each of bytes that are listed as a line lists them.
fn keys_of(line: &[u8]) -> Keys {
    let letters = field(line, 3);
    Keys {
        admin: key(letters, 0, b"101112131415161718191a1b1c1d1e1f"),
        member: key(letters, 1, b"303132333435363738393a3b3c3d3e3f"),
        basic: key(letters, 2, b"505152535455565758595a5b5c5d5e5f"),
        setup: key(letters, 3, b"707172737475767778797a7b7c7d7e7f"),
    }
}

// The connection that a line names.
fn connection_of(line: &[u8]) -> Connection {
    let mut nonce = [0u8; 5];
    let mut validation = [0u8; 4];
    reading::bytes(&mut nonce, 0, field(line, 5));
    reading::bytes(&mut validation, 0, reading::field(field(line, 6), b' ', 0));
    Connection {
        held: matches!(field(line, 4), b"held"),
        nonce,
        validation,
        memory: session_text::memory_in(field(line, 6), 1),
    }
}

fn show_answer(out: &mut [u8], at: usize, answer: Result<(), Refusal>) -> usize {
    match answer {
        Ok(()) => text::put(out, at, b"accepted"),
        Err(refusal) => text::named(out, at, b"refused ", refusal.number() as u64),
    }
}

fn show_held(out: &mut [u8], at: usize, held: bool) -> usize {
    if held {
        return text::put(out, at, b", held ");
    }
    text::put(out, at, b", none ")
}

// The answer, and the connection after it.
fn show_read(out: &mut [u8], at: usize, read: DataRead) -> usize {
    let after = read.connection;
    let a = show_answer(out, at, read.answer);
    let b = show_held(out, a, after.held);
    let c = text::hex(out, b, &after.nonce);
    let d = text::put(out, c, b" ");
    let e = text::hex(out, d, &after.validation);
    session_text::memory(out, e, after.memory)
}

fn read_case(line: &[u8], out: &mut [u8], at: usize) -> usize {
    let mut block = [0u8; 64];
    let n = reading::bytes(&mut block, 0, field(line, 7));
    let read = session_data::read_session_data(
        keys_of(line),
        mode_of(line),
        connection_of(line),
        front(&block, n),
    );
    show_read(out, at, read)
}

// What was written, read back.
fn read_back(line: &[u8], block: &[u8], out: &mut [u8], at: usize) -> usize {
    let a = text::put(out, at, b", read back ");
    let read = session_data::read_session_data(
        keys_of(line),
        mode_of(line),
        Connection::none(),
        block,
    );
    show_read(out, a, read)
}

// The writer's answer, and all of the room.
fn show_room(out: &mut [u8], at: usize, name: &[u8], n: usize, room: &[u8]) -> usize {
    let a = text::named(out, at, name, n as u64);
    let b = text::put(out, a, b", room ");
    text::hex(out, b, room)
}

fn show_written(
    line: &[u8],
    written: Result<usize, Refusal>,
    room: &[u8],
    out: &mut [u8],
    at: usize,
) -> usize {
    match written {
        Err(refusal) => {
            let number = refusal.number();
            show_room(out, at, b"refused ", number as usize, room)
        }
        Ok(len) => {
            let a = show_room(out, at, b"wrote ", len, room);
            read_back(line, front(room, len), out, a)
        }
    }
}

// How many bytes of room a line lends.
fn lent(line: &[u8]) -> usize
    ensures { result ≤ 64 }
{
    (reading::number(field(line, 4)) % 65) as usize
}

fn write_case(line: &[u8], room: &mut [u8], out: &mut [u8], at: usize) -> usize
    requires { 64 ≤ length room.old }
{
    let n = lent(line);
    let c = connection_of(line);
    let written = session_data::write_session_data(
        keys_of(line),
        mode_of(line),
        c.nonce,
        c.validation,
        &mut room[..n],
    );
    show_written(line, written, front(room, n), out, at)
}

fn run(line: &[u8], out: &mut [u8]) -> usize {
    let a = text::put(out, 0, field(line, 1));
    let b = text::put(out, a, b": ");
    let c = match field(line, 0) {
        b"read" => read_case(line, out, b),
        _ => write_case(line, &mut [0xEEu8; 64], out, b),
    };
    text::put(out, c, b"\n")
}

// One line of the output.
fn case<R: Print>(rt: &R, line: &[u8]) -> io::Result<()> {
    let mut out = [0u8; 512];
    let len = run(line, &mut out);
    rt.write_all(front(&out, len))
}

fn main(rt: HostRuntime) -> io::Result<()> {
    console::for_each_line(&rt, &mut console::large_buffer(), |line| case(&rt, line))
}
