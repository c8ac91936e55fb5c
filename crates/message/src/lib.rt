// UART messages and their reader.
#![tactic(auto)]

mod bodies;
mod forms;

ghost use Rattle.std.specs.Prelude.{◌≡◌};
ghost use Rattle.message.specs.Message.{parts_at};
ghost use Rattle.message.specs.Table.{type_of};
ghost use Rattle.message.specs.Reading.{ReadsMessage, read_type};

use crate::forms::{Allowed, in_form};
use access::Mode;
use control::Command;
use units::{Minutes, Seconds};
use wire::{Part, Refusal};

// How a message comes.
#[derive(Clone, Copy)]
pub enum Form {
    Plain,
    Encrypted,
}

// A part in a message counts from the start of the message's data; a command's from the start of its payload.
#[derive(Clone, Copy)]
pub enum Message {
    Hello(u8),
    SessionNonce(SessionNonceFields),
    Heartbeat(Seconds),
    Status(StatusFields),
    GetMac,
    Control(Command),
    HubReply(HubReplyFields),
}

#[derive(Clone, Copy)]
pub struct SessionNonceFields {
    pub timeout: Minutes,
    pub nonce: [u8; 5],
}

// Kind: the status's type.
#[derive(Clone, Copy)]
pub struct StatusFields {
    pub kind: u8,
    pub flags: u8,
    pub data: Part,
}

#[derive(Clone, Copy)]
pub struct HubReplyFields {
    pub code: u16,
    pub data: Part,
}

// Where in a message's data the bytes begin that its parts count from.
pub fn parts_at(m: Message) -> usize
    ensures { result ≡ parts_at m }
{
    match m {
        Message::Control(_) => 5,
        _ => 0,
    }
}

// A message in its form, in a mode: 14 to 17, for a control packet 18 to 24, or the message.
pub fn read_message(
    message: &[u8],
    form: Form,
    required: bool,
    mode: Mode,
) -> Result<Message, Refusal>
    ensures { ReadsMessage message.now form required mode result }
{
    if message.len() < 2 {
        return Err(Refusal::UnknownDataType);
    }
    read_type(
        wire::read_u16(message, 0),
        &message[2..],
        form,
        required,
        mode,
    )
}

// The table of data types: number, form, data.
fn read_type(
    number: u16,
    d: &[u8],
    form: Form,
    required: bool,
    mode: Mode,
) -> Result<Message, Refusal>
    ensures { result ≡ read_type (type_of number) d.now form required mode }
{
    match number {
        0 => in_form(Allowed::PlainOnly, form, required, bodies::hello(d)),
        1 => in_form(Allowed::PlainOnly, form, required, bodies::session_nonce(d)),
        2 => in_form(Allowed::Either, form, required, bodies::heartbeat(d)),
        3 => in_form(Allowed::Either, form, required, bodies::status(d)),
        4 => in_form(Allowed::PlainOnly, form, required, bodies::get_mac(d)),
        10 => in_form(
            Allowed::EncryptedWhenRequired,
            form,
            required,
            bodies::control_packet(d, form, mode),
        ),
        11 => in_form(Allowed::Either, form, required, bodies::hub_reply(d)),
        _ => Err(Refusal::UnknownDataType),
    }
}
