// The line received, and each frame opened: one line of output each.
use access::Mode;
use aes::Small;
use bridge::{Context, Place, Refused, Reply};
use console::front;
use line::{Event, Progress, Receiver};
use session::Session;
use std::io;
use units::Seconds;
use wire::Refusal;

// A receiver inside a frame of size 40 of which five bytes have come, its store full of other bytes.
fn caught() -> Receiver {
    Receiver {
        progress: Progress {
            inside: true,
            escaped: false,
            low: 0,
            got: 7,
            size: 40,
            count: 8,
        },
        store: [0xEE; 512],
    }
}

pub fn receive<R: Print>(rt: &R, line: &[u8]) -> io::Result<()> {
    let mut receiver = caught();
    let mut session = Session::none();
    for b in line {
        let step = receiver.step(*b);
        receiver = step.receiver;
        if let Some(event) = step.event {
            session = handle(rt, event, &receiver.store, session)?;
        }
    }
    Ok(())
}

// Opens a frame or writes a refusal; the session after it.
fn handle<R: Print>(
    rt: &R,
    event: Event,
    store: &[u8; 512],
    session: Session,
) -> io::Result<Session> {
    match event {
        Event::Frame {
            major,
            minor,
            wrapper,
            len,
        } => {
            let payload = line::frame_payload(store, len);
            open(rt, major, minor, wrapper, payload, session)
        }
        Event::Refused { refusal, place } => {
            receiver_refused(rt, refusal, place)?;
            Ok(session)
        }
    }
}

// Writes the line that ends at a place.
pub fn end_line<R: Print>(rt: &R, out: &mut [u8], at: usize) -> io::Result<()> {
    let n = text::put(out, at, b"\n");
    rt.write_all(front(out, n))
}

fn receiver_refused<R: Print>(rt: &R, refusal: Refusal, place: usize) -> io::Result<()> {
    let mut out = [0u8; 64];
    let a = text::named(&mut out, 0, b"receiver refused ", refusal.number() as u64);
    let b = text::named(&mut out, a, b" ", place as u64);
    end_line(rt, &mut out, b)
}

// The work buffer holds other bytes at each opening.
fn open<R: Print>(
    rt: &R,
    major: u8,
    minor: u8,
    wrapper: u8,
    payload: &[u8],
    session: Session,
) -> io::Result<Session> {
    let mut work = [0xEEu8; 496];
    let context = Context {
        session,
        time: Seconds(1000),
        keys: crate::keys(),
        mode: Mode::Normal,
        required: false,
    };
    let opened = bridge::uart::open::<Small>(major, minor, wrapper, payload, context, &mut work);
    let mut out = [0u8; 2048];
    let content = content_text::message;
    let end = show(&mut out, 0, opened.answer, content, payload, &work);
    end_line(rt, &mut out, end)?;
    Ok(opened.session)
}

// What was accepted, by its content and payload, or the refusal.
pub fn show<T, F: FnOnce(&mut [u8], usize, T) -> usize>(
    out: &mut [u8],
    at: usize,
    answer: Result<(T, Place), Refused>,
    content: F,
    frame: &[u8],
    work: &[u8],
) -> usize
    requires { F.IsAlwaysCallable content }
{
    match answer {
        Ok((accepted, place)) => {
            let a = text::put(out, at, b"accepted");
            let b = content(out, a, accepted);
            contents(out, b, place, frame, work)
        }
        Err(r) => refused(out, at, r),
    }
}

// Where the payload came from, and its bytes.
fn contents(out: &mut [u8], at: usize, place: Place, frame: &[u8], work: &[u8]) -> usize {
    let a = match place {
        Place::Work(_) => text::put(out, at, b"; deciphered ["),
        Place::Frame(_) => text::put(out, at, b"; plain ["),
    };
    let b = text::hex(out, a, bridge::payload(frame, work, place));
    text::put(out, b, b"]")
}

fn refused(out: &mut [u8], at: usize, r: Refused) -> usize {
    let a = text::named(out, at, b"refused ", r.refusal.number() as u64);
    match r.reply {
        None => text::put(out, a, b" no reply"),
        Some(Reply::Error(n)) => text::named(out, a, b" error ", n as u64),
        Some(Reply::Code(n)) => text::named(out, a, b" code ", n as u64),
    }
}
