// Prints what comes of the cases that standard input lists, a line each: LABEL:|KIND|WAYS OR NUMBERS|BYTES|PARTS|ROOM. A line of one field is a heading.
// Kinds: c control packet, m message, r result packet, k the key with an index, l the level with a number, a a control packet in six ways;
// wc, wm, wr writing a command, a message, a result packet; wp, wu a done result of get presence, of get uptime.
#![tactic(auto)]

mod readers;
mod writers;

ghost use Rattle.std.specs.Prelude.{◌≡◌, length};

use console::front;
use std::io;
use text::reading;
use wire::Refusal;

fn main(rt: HostRuntime) -> io::Result<()> {
    console::for_each_line(&rt, &mut console::large_buffer(), |line| case(&rt, line))
}

fn case<R: Print>(rt: &R, line: &[u8]) -> io::Result<()> {
    let mut room = full();
    let n = reading::bytes(&mut room, 0, reading::field(line, b'|', 3));
    print(rt, line, front(&room, n))
}

fn print<R: Print>(rt: &R, line: &[u8], bytes: &[u8]) -> io::Result<()> {
    let mut out = [0u8; 4096];
    let a = text::put(&mut out, 0, reading::field(line, b'|', 0));
    let b = answer(&mut out, a, line, bytes);
    let n = text::put(&mut out, b, b"\n");
    rt.write_all(front(&out, n))
}

fn answer(out: &mut [u8], at: usize, line: &[u8], bytes: &[u8]) -> usize {
    let way = reading::field(line, b'|', 2);
    let kind = wire::byte_at(reading::field(line, b'|', 1), 0);
    match kind {
        0 => at,
        b'k' => readers::key(out, at, wire::byte_at(bytes, 0)),
        b'l' => readers::level(out, at, wire::byte_at(bytes, 0)),
        b'a' => readers::marks(out, at, bytes, way),
        b'w' => writers::written(out, at, bytes, line),
        _ => readers::packet(out, at, kind, bytes, way),
    }
}

// A room for the longest packets, full of EE.
fn full() -> [u8; 65548]
    ensures { 65548 ≡ length result }
{
    [0xEE; 65548]
}

fn refused(out: &mut [u8], at: usize, refusal: Refusal) -> usize {
    text::named(out, at, b" refused ", refusal.number() as u64)
}
