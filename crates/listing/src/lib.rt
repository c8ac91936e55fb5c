// The lister of a capture of the serial line: a line of text for each event, and the loop that reads standard input and prints them, by way
// of buffers.
#![tactic(auto)]

ghost use Rattle.std.specs.Prelude.{◌≡◌, ◌+◌, ◌≤◌, ◌<◌, length, IfOk};
ghost use Rattle.text.specs.Puts.{Puts};
ghost use Rattle.line.specs.Receive.{holding};
ghost use Rattle.line.specs.Line.{after};
ghost use Rattle.listing.specs.Listing.{refused_words, refused_line, refused_numbers, event_words, event_text, event_numbers, Lists};

use line::{Event, Progress, Receiver};
use std::io;
use std::io::Read;

// `refused N PLACE`, whatever the number: also one that no refusal has.
pub fn refused_words(out: &mut [u8], at: usize, number: u8, place: usize) -> usize
    ensures { Puts (refused_words number place) at out.old result out.new }
{
    let behind = text::named(out, at, b"refused ", number as u64);
    text::named(out, behind, b" ", place as u64)
}

// `frame TYPE LENGTH` or `refused N PLACE`, nothing where there is no event: put into `out` from `at` on; the answer is where it ends.
pub fn event_words(out: &mut [u8], at: usize, e: Option<Event>) -> usize
    ensures { Puts (event_words e) at out.old result out.new }
{
    match e {
        None => at,
        Some(Event::Frame { wrapper, len, .. }) => {
            let a = text::named(out, at, b"frame ", wrapper as u64);
            text::named(out, a, b" ", len as u64)
        }
        Some(Event::Refused { refusal, place }) => {
            refused_words(out, at, refusal.number(), place)
        }
    }
}

// A refusal's words as a line.
pub fn refused_line(out: &mut [u8], at: usize, number: u8, place: usize) -> usize
    ensures { Puts (refused_line number place) at out.old result out.new }
{
    let behind = refused_words(out, at, number, place);
    text::put(out, behind, b"\n")
}

// An event's words as a line.
pub fn event_line(out: &mut [u8], at: usize, e: Option<Event>) -> usize
    ensures { Puts (event_text e) at out.old result out.new }
{
    let behind = event_words(out, at, e);
    match e {
        None => behind,
        Some(_) => text::put(out, behind, b"\n"),
    }
}

// ` refused N PLACE`, whatever the number.
pub fn refused_numbers(out: &mut [u8], at: usize, number: u8, place: usize) -> usize
    ensures { Puts (refused_numbers number place) at out.old result out.new }
{
    let numbers = [number as u64, place as u64];
    let behind = text::put(out, at, b" refused");
    text::decimals(out, behind, &numbers)
}

// ` frame MAJOR MINOR TYPE LENGTH` or ` refused N PLACE`, nothing where there is no event.
pub fn event_numbers(out: &mut [u8], at: usize, e: Option<Event>) -> usize
    ensures { Puts (event_numbers e) at out.old result out.new }
{
    match e {
        None => at,
        Some(
            Event::Frame {
                major,
                minor,
                wrapper,
                len,
            },
        ) => {
            let numbers = [major as u64, minor as u64, wrapper as u64, len as u64];
            let behind = text::put(out, at, b" frame");
            text::decimals(out, behind, &numbers)
        }
        Some(Event::Refused { refusal, place }) => {
            refused_numbers(out, at, refusal.number(), place)
        }
    }
}

// The receiver's progress after the bytes that were listed, the place behind them, and the place behind their lines.
#[derive(Clone, Copy)]
pub struct Listed {
    pub progress: Progress,
    pub used: usize,
    pub at: usize,
}

// The lines of the events that the bytes of `s` from `from` on give, at the front of `out`: up to the end of `s`, or until fewer than 50
// bytes of `out` are left, enough for any line.
pub fn list_some(
    start: Progress,
    store: &mut [u8; 512],
    s: &[u8],
    from: usize,
    out: &mut [u8],
) -> Listed
    ensures { Lists s.now from (holding start store.old) result.used (holding result.progress store.new) out.old result.at out.new
        × (result.used < length s.now → length out.old < result.at + 50) }
{
    let mut progress = start;
    let mut used = from;
    let mut at: usize = 0;
    // `advance` says how far each turn goes.
    while used < s.len() {
        if out.len() - at < 50 {
            return Listed { progress, used, at };
        }
        let a = line::advance(progress, store, s, used);
        at = event_line(out, at, a.event);
        progress = a.progress;
        used = a.used;
    }
    Listed { progress, used, at }
}

// The first bytes of a buffer are written out.
fn write_out<R: Print>(rt: &R, out: &[u8], n: usize) -> io::Result<()>
    requires { n ≤ length out.now }
{
    rt.write_all(&out[..n])
}

// The receiver gets all bytes of a read, and each event is listed.
fn list_read<R: Print>(rt: &R, r: Receiver, s: &[u8]) -> io::Result<Receiver>
    ensures { IfOk result (λ x. x ≡ after s.now r) }
{
    let mut progress = r.progress;
    let mut store = r.store;
    let mut out = [0u8; 4096];
    let mut used = 0;
    // `list_some` says how far each turn goes.
    while used < s.len() {
        let l = list_some(progress, &mut store, s, used, &mut out);
        write_out(rt, &out, l.at)?;
        progress = l.progress;
        used = l.used;
    }
    Ok(Receiver { progress, store })
}

// The receiver after a read, and how many bytes the read gave.
#[derive(Clone, Copy)]
struct Turn {
    receiver: Receiver,
    got: usize,
}

// One read, which may end inside a frame.
fn read_some<I: Read, R: Print>(input: &mut I, rt: &R, r: Receiver) -> io::Result<Turn> {
    let mut buf = console::large_buffer();
    let got = input.read(&mut buf)?;
    let receiver = list_read(rt, r, &buf[..got])?;
    Ok(Turn { receiver, got })
}

// Standard input is listed to its end. A proved loop has to end, and nothing shows that the input does: it has as many turns as no run uses up.
pub fn list_all<R: Input + Print>(rt: &R) -> io::Result<()> {
    let mut input = rt.reader();
    let mut now = line::fresh();
    for _ in 0..u64::MAX {
        let t = read_some(&mut input, rt, now)?;
        if t.got == 0 {
            return rt.write_all(b"end\n");
        }
        now = t.receiver;
    }
    Ok(())
}
