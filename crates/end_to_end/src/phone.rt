// Control packets as a phone sends them: sealed with a level's key, and opened. Numbers: the level, the mode n or s, the packet nonce's number.
use access::{Level, Mode};
use aes::Small;
use bridge::Link;
use console::front;
use session::{Connection, Keys, NonceMemory};
use std::io;
use text::reading;
use wire::Refusal;

fn key(first: u8) -> Option<[u8; 16]> {
    let mut bytes = [0x5Cu8; 16];
    bytes[0] = first;
    Some(bytes)
}

fn keys() -> Keys {
    Keys {
        admin: key(1),
        member: key(2),
        basic: key(3),
        setup: key(4),
    }
}

// The connection session before the first packet.
pub fn connection() -> Connection {
    Connection {
        held: true,
        nonce: [0x7E, 0x5C, 4, 5, 6],
        validation: [0xD0, 0xD1, 0xD2, 0xD3],
        memory: NonceMemory::empty(),
    }
}

fn mode_of(letter: u8) -> Mode {
    match letter {
        b's' => Mode::Setup,
        _ => Mode::Normal,
    }
}

// Where the text of an answer ends, and the connection session after it.
#[derive(Clone, Copy)]
struct Answered {
    end: usize,
    connection: Connection,
}

// One line: the level, and what the opener makes of what the sealer wrote; the connection session after it.
pub fn packet<R: Print>(
    rt: &R,
    v: &[u8],
    bytes: &[u8],
    connection: Connection,
) -> io::Result<Connection> {
    let mut out = [0u8; 1024];
    let number = (reading::number(v) % 256) as u8;
    let a = text::named(&mut out, 0, b"level ", number as u64);
    let b = text::put(&mut out, a, b": ");
    let answered = answer(&mut out, b, number, v, bytes, connection);
    crate::opening::end_line(rt, &mut out, answered.end)?;
    Ok(answered.connection)
}

fn answer(
    out: &mut [u8],
    at: usize,
    number: u8,
    v: &[u8],
    bytes: &[u8],
    connection: Connection,
) -> Answered {
    match Level::try_from(number) {
        Ok(level) => sealed(out, at, level, v, bytes, connection),
        Err(_) => Answered {
            end: text::put(out, at, b"unknown"),
            connection,
        },
    }
}

fn sealed(
    out: &mut [u8],
    at: usize,
    level: Level,
    v: &[u8],
    bytes: &[u8],
    connection: Connection,
) -> Answered {
    let mode = mode_of(wire::byte_at(reading::field(v, b' ', 1), 0));
    let nonce = crate::nonce(reading::field(v, b' ', 2));
    let mut room = [0u8; 512];
    match seal(connection, level, mode, nonce, bytes, &mut room) {
        Ok(n) => open(out, at, front(&room, n), connection, mode),
        Err(refusal) => Answered {
            end: text::named(out, at, b"sealer refused ", refusal.number() as u64),
            connection,
        },
    }
}

fn seal(
    connection: Connection,
    level: Level,
    mode: Mode,
    nonce: [u8; 3],
    bytes: &[u8],
    room: &mut [u8],
) -> Result<usize, Refusal> {
    envelope::seal_characteristic::<Small>(
        keys(),
        mode,
        level,
        nonce,
        connection.nonce,
        connection.validation,
        bytes,
        room,
    )
}

fn open(out: &mut [u8], at: usize, packet: &[u8], connection: Connection, mode: Mode) -> Answered {
    let mut work = [0xEEu8; 496];
    let link = Link {
        connection,
        keys: keys(),
        mode,
    };
    let opened = bridge::characteristic::open::<Small>(packet, link, &mut work);
    let content = content_text::command;
    Answered {
        end: crate::opening::show(out, at, opened.answer, content, packet, &work),
        connection: opened.connection,
    }
}
