// What a command and a message hold, as a text in the documents' numbers: each number behind a space, of a signed one its byte, and its value behind the
// word offset; each part as START+LENGTH behind a space.
#![tactic(auto)]

mod fields;

ghost use Rattle.text.specs.Puts.{Puts};
ghost use Rattle.content_text.specs.Content.{part_text, offset_text, rssi_text, command_text, message_text};

use control::Command;
use message::Message;
use wire::Part;

// A part.
pub fn part(out: &mut [u8], at: usize, p: Part) -> usize
    ensures { Puts (part_text p) at out.old result out.new }
{
    let behind = text::named(out, at, b" ", p.start as u64);
    text::named(out, behind, b"+", p.len as u64)
}

fn put_offset(out: &mut [u8], at: usize, offset: Option<i8>) -> usize
    ensures { Puts (offset_text offset) at out.old result out.new }
{
    match offset {
        Some(v) => put_rssi(out, at, v),
        None => at,
    }
}

fn put_rssi(out: &mut [u8], at: usize, v: i8) -> usize
    ensures { Puts (rssi_text v) at out.old result out.new }
{
    let size = u64::from(v.unsigned_abs());
    if v < 0 {
        return text::named(out, at, b" offset -", size);
    }
    text::named(out, at, b" offset ", size)
}

// A command: its number, the numbers in its fields, its offset, its parts.
pub fn command(out: &mut [u8], at: usize, c: Command) -> usize
    ensures { Puts (command_text c) at out.old result out.new }
{
    let a = fields::command_numbers(out, at, c);
    let b = put_offset(out, a, fields::command_offset(c));
    fields::command_parts(out, b, c)
}

// A message: its data type, the numbers in its fields, its offset, its parts; behind a control message's type its command.
pub fn message(out: &mut [u8], at: usize, m: Message) -> usize
    ensures { Puts (message_text m) at out.old result out.new }
{
    let a = text::decimals(out, at, &[fields::message_type(m)]);
    let b = fields::message_numbers(out, a, m);
    let c = put_offset(out, b, fields::message_offset(m));
    fields::message_parts(out, c, m)
}
