// The readers. A way in is letters. The first is the mode: n normal, s setup.
// The second for a control packet: - plain, a admin, m member, b basic, s setup, u a number that no level has.
// For a message: - plain, e encrypted; then ! where encryption is required.
use access::{Access, Level, Mode};
use console::front;
use control::Command;
use message::{Form, Message};
use result::{PresenceResult, ResultPacket, ResultRead, UptimeResult};
use text::reading;
use wire::{Part, Refusal};

fn mode_of(way: &[u8]) -> Mode {
    match wire::byte_at(way, 0) {
        b's' => Mode::Setup,
        _ => Mode::Normal,
    }
}

fn access_of(way: &[u8]) -> Access {
    match wire::byte_at(way, 1) {
        b'a' => Access::Keyed(Level::Admin),
        b'm' => Access::Keyed(Level::Member),
        b'b' => Access::Keyed(Level::Basic),
        b's' => Access::Keyed(Level::Setup),
        b'u' => Access::Unknown,
        _ => Access::Plain,
    }
}

fn form_of(way: &[u8]) -> Form {
    match wire::byte_at(way, 1) {
        b'e' => Form::Encrypted,
        _ => Form::Plain,
    }
}

// The bytes from a place on.
fn behind(s: &[u8], at: usize) -> &[u8] {
    s.get(at..).unwrap_or(&[])
}

// What a writer made of what was read, at the front of a room, against the bytes read.
fn again(
    out: &mut [u8],
    at: usize,
    written: Result<usize, Refusal>,
    room: &[u8],
    bytes: &[u8],
) -> usize {
    match written {
        Ok(n) if front(room, n) == bytes => text::put(out, at, b", written back"),
        Ok(_) => text::put(out, at, b", written otherwise"),
        Err(refusal) => text::named(out, at, b", writing refused ", refusal.number() as u64),
    }
}

// What a reader made of a packet or a message.
#[derive(Clone, Copy)]
enum Read {
    Command(Command),
    Message(Message),
    Result(ResultRead),
}

fn read_as(kind: u8, bytes: &[u8], way: &[u8]) -> Result<Read, Refusal> {
    let mode = mode_of(way);
    match kind {
        b'c' => control::read_control(bytes, mode, access_of(way)).map(Read::Command),
        b'm' => {
            let required = wire::byte_at(way, 2) == b'!';
            message::read_message(bytes, form_of(way), required, mode).map(Read::Message)
        }
        _ => result::read_result(bytes).map(Read::Result),
    }
}

fn content(out: &mut [u8], at: usize, read: Read) -> usize {
    match read {
        Read::Command(c) => content_text::command(out, at, c),
        Read::Message(m) => content_text::message(out, at, m),
        Read::Result(r) => result_content(out, at, r),
    }
}

// What came of the command, and the result's fields.
fn result_content(out: &mut [u8], at: usize, read: ResultRead) -> usize {
    match read {
        ResultRead::Done(r) => packet_content(out, at, b" done ", r),
        ResultRead::Waiting(r) => packet_content(out, at, b" waiting ", r),
        ResultRead::Failed(r) => packet_content(out, at, b" failed ", r),
        ResultRead::Presence(r) => presence_content(out, at, r),
        ResultRead::Uptime(r) => uptime_content(out, at, r),
    }
}

// The command, the code, the payload.
fn packet_content(out: &mut [u8], at: usize, outcome: &[u8], r: ResultPacket) -> usize {
    let a = text::named(out, at, outcome, r.command as u64);
    let b = text::named(out, a, b" ", r.code as u64);
    content_text::part(out, b, r.payload)
}

// The code, the eight masks.
fn presence_content(out: &mut [u8], at: usize, r: PresenceResult) -> usize {
    let a = text::named(out, at, b" presence ", r.code as u64);
    text::decimals(out, a, &r.masks)
}

// The code, the seconds.
fn uptime_content(out: &mut [u8], at: usize, r: UptimeResult) -> usize {
    let a = text::named(out, at, b" uptime ", r.code as u64);
    text::named(out, a, b" ", r.uptime.0)
}

fn write(read: Read, bytes: &[u8], room: &mut [u8]) -> Result<usize, Refusal> {
    match read {
        Read::Command(c) => control_write::write_control(c, behind(bytes, 5), room),
        Read::Message(m) => {
            let parts = behind(behind(bytes, 2), message::parts_at(m));
            message_write::write_message(m, parts, room)
        }
        Read::Result(r) => write_result(r, bytes, room),
    }
}

fn write_result(read: ResultRead, bytes: &[u8], room: &mut [u8]) -> Result<usize, Refusal> {
    match read {
        ResultRead::Done(r) | ResultRead::Waiting(r) | ResultRead::Failed(r) => {
            result::write_result(r, bytes, room)
        }
        ResultRead::Presence(r) => result::write_presence(r, room),
        ResultRead::Uptime(r) => result::write_uptime(r, room),
    }
}

pub fn packet(out: &mut [u8], at: usize, kind: u8, bytes: &[u8], way: &[u8]) -> usize {
    match read_as(kind, bytes, way) {
        Ok(read) => accepted(out, at, read, bytes),
        Err(refusal) => crate::refused(out, at, refusal),
    }
}

// The content, and what the writer makes of it.
fn accepted(out: &mut [u8], at: usize, read: Read, bytes: &[u8]) -> usize {
    let told = content(out, at, read);
    let mut room = crate::full();
    let written = write(read, bytes, &mut room);
    again(out, told, written, &room, bytes)
}

// One packet in six ways: ok, or the refusal's number.
pub fn marks(out: &mut [u8], at: usize, packet: &[u8], ways: &[u8]) -> usize {
    let mut end = at;
    for k in 0..6 {
        end = mark(out, end, packet, reading::field(ways, b' ', k));
    }
    end
}

fn mark(out: &mut [u8], at: usize, packet: &[u8], way: &[u8]) -> usize {
    match read_as(b'c', packet, way) {
        Ok(_) => text::put(out, at, b" ok"),
        Err(refusal) => text::named(out, at, b" ", refusal.number() as u64),
    }
}

pub fn key(out: &mut [u8], at: usize, index: u8) -> usize {
    let keys = Part { start: 2, len: 96 };
    content_text::part(out, at, control::key_part(keys, wire::wide(index)))
}

pub fn level(out: &mut [u8], at: usize, n: u8) -> usize {
    match Level::try_from(n) {
        Ok(l) => text::named(out, at, b" known, ", u64::from(u8::from(l))),
        Err(_) => text::put(out, at, b" unknown"),
    }
}
