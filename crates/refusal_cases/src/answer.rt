// What comes of a case: the answer, the work buffer, the session.
ghost use Rattle.std.specs.Prelude.{◌≤◌, length};

use bridge::{Place, Refused, Reply};
use console::front;
use session::{Connection, Session};

fn refused(out: &mut [u8], at: usize, r: Refused) -> usize {
    let told = text::named(out, at, b" refused ", r.refusal.number() as u64);
    match r.reply {
        None => text::put(out, told, b" no reply"),
        Some(Reply::Error(n)) => text::named(out, told, b" error ", n as u64),
        Some(Reply::Code(n)) => text::named(out, told, b" code ", n as u64),
    }
}

// Bytes in base 16 behind their name.
fn bytes(out: &mut [u8], at: usize, name: &[u8], s: &[u8]) -> usize {
    let named = text::put(out, at, name);
    text::hex(out, named, s)
}

// What was accepted, by its content and payload, or the refusal.
pub fn opened<T, F: FnOnce(&mut [u8], usize, T) -> usize>(
    out: &mut [u8],
    at: usize,
    answer: Result<(T, Place), Refused>,
    content: F,
    frame: &[u8],
    work: &[u8],
) -> usize
    requires { F.IsAlwaysCallable content }
{
    match answer {
        Ok((accepted, place)) => {
            let told = content(out, at, accepted);
            let payload = bridge::payload(frame, work, place);
            bytes(out, told, b" accepted, payload ", payload)
        }
        Err(r) => refused(out, at, r),
    }
}

// How many bytes stand before those of EE at the end.
fn changed(s: &[u8]) -> usize
    ensures { result ≤ length s.now }
{
    s.iter().rposition(|b| *b != 0xEE).map_or(0, |k| k + 1)
}

// All of a work buffer, with the bytes of EE that are left at its end counted.
pub fn work(out: &mut [u8], at: usize, work: &[u8]) -> usize {
    let len = changed(work);
    let told = bytes(out, at, b"; work ", front(work, len));
    text::named(out, told, b"+ee*", (work.len() - len) as u64)
}

// A session as its field in a line has it, or that it is the one given.
fn told(out: &mut [u8], at: usize, given: &[u8], after: &[u8]) -> usize {
    if given == after {
        return text::put(out, at, b"; session kept");
    }
    let named = text::put(out, at, b"; session ");
    text::put(out, named, after)
}

pub fn session(out: &mut [u8], at: usize, given: &[u8], s: Session) -> usize {
    let mut room = [0u8; 192];
    let named = text::hex(&mut room, 0, &s.nonce);
    let numbers = [s.timeout.0, s.since.0, s.held as u64];
    let held = text::decimals(&mut room, named, &numbers);
    let len = session_text::memory(&mut room, held, s.memory);
    told(out, at, given, front(&room, len))
}

pub fn connection(out: &mut [u8], at: usize, given: &[u8], c: Connection) -> usize {
    let mut room = [0u8; 192];
    let named = text::hex(&mut room, 0, &c.nonce);
    let valid = bytes(&mut room, named, b" ", &c.validation);
    let held = text::decimals(&mut room, valid, &[c.held as u64]);
    let len = session_text::memory(&mut room, held, c.memory);
    told(out, at, given, front(&room, len))
}
