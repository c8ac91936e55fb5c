// A reader for each type's data: 17 for its length or a field, or the message, whatever form and mode.
ghost use Rattle.std.specs.Prelude.{◌≡◌};
ghost use Rattle.access.specs.declared.Mode.{Mode as ModeOf};
ghost use Rattle.message.specs.declared.Form.{Form as FormOf};
ghost use Rattle.message.specs.Table.{type_of, packet};
ghost use Rattle.message.specs.Reading.{read_body};

use crate::forms::access_of;
use crate::{Form, HubReplyFields, Message, SessionNonceFields, StatusFields};
use access::Mode;
use units::{Minutes, Seconds};
use wire::{Part, Refusal};

pub fn hello(d: &[u8]) -> Result<Message, Refusal>
    ensures { (f : FormOf) (m : ModeOf) → result ≡ read_body (type_of 0).body d.now f m }
{
    if d.len() != 1 {
        return Err(Refusal::BadMessageData);
    }
    let flags = d[0];
    if 15 < flags {
        return Err(Refusal::BadMessageData);
    }
    Ok(Message::Hello(flags))
}

pub fn session_nonce(d: &[u8]) -> Result<Message, Refusal>
    ensures { (f : FormOf) (m : ModeOf) → result ≡ read_body (type_of 1).body d.now f m }
{
    if d.len() != 6 {
        return Err(Refusal::BadMessageData);
    }
    Ok(Message::SessionNonce(SessionNonceFields {
        timeout: Minutes(wire::byte_at(d, 0) as u64),
        nonce: [d[1], d[2], d[3], d[4], d[5]],
    }))
}

pub fn heartbeat(d: &[u8]) -> Result<Message, Refusal>
    ensures { (f : FormOf) (m : ModeOf) → result ≡ read_body (type_of 2).body d.now f m }
{
    if d.len() != 2 {
        return Err(Refusal::BadMessageData);
    }
    Ok(Message::Heartbeat(Seconds(wire::read_u16(d, 0) as u64)))
}

pub fn status(d: &[u8]) -> Result<Message, Refusal>
    ensures { (f : FormOf) (m : ModeOf) → result ≡ read_body (type_of 3).body d.now f m }
{
    if d.len() != 11 {
        return Err(Refusal::BadMessageData);
    }
    let kind = d[0];
    if 1 < kind {
        return Err(Refusal::BadMessageData);
    }
    let flags = d[1];
    if 15 < flags {
        return Err(Refusal::BadMessageData);
    }
    Ok(Message::Status(StatusFields {
        kind,
        flags,
        data: Part { start: 2, len: 9 },
    }))
}

pub fn get_mac(d: &[u8]) -> Result<Message, Refusal>
    ensures { (f : FormOf) (m : ModeOf) → result ≡ read_body (type_of 4).body d.now f m }
{
    if d.len() != 0 {
        return Err(Refusal::BadMessageData);
    }
    Ok(Message::GetMac)
}

// A control packet has its own rules, 18 to 24.
pub fn control_packet(d: &[u8], form: Form, mode: Mode) -> Result<Message, Refusal>
    ensures { result ≡ read_body packet d.now form mode }
{
    let command = control::read_control(d, mode, access_of(form))?;
    Ok(Message::Control(command))
}

pub fn hub_reply(d: &[u8]) -> Result<Message, Refusal>
    ensures { (f : FormOf) (m : ModeOf) → result ≡ read_body (type_of 11).body d.now f m }
{
    if d.len() < 2 {
        return Err(Refusal::BadMessageData);
    }
    Ok(Message::HubReply(HubReplyFields {
        code: wire::read_u16(d, 0),
        data: Part {
            start: 2,
            len: d.len() - 2,
        },
    }))
}
