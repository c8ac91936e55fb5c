// The writer of UART messages.
#![tactic(auto)]

mod bodies;

ghost use Rattle.wire.specs.Writing.{Writes};
ghost use Rattle.message_write.specs.Image.{message_image, message_bad};

use message::Message;
use wire::Refusal;

// A message. Its parts, or its command's, name bytes of `bytes`.
pub fn write_message(m: Message, bytes: &[u8], out: &mut [u8]) -> Result<usize, Refusal>
    ensures { Writes (message_bad m bytes.now) (message_image m bytes.now) out.old result out.new }
{
    match m {
        Message::Hello(flags) => bodies::hello(flags, bytes, out),
        Message::SessionNonce(f) => bodies::session_nonce(f, bytes, out),
        Message::Heartbeat(timeout) => bodies::heartbeat(timeout, bytes, out),
        Message::Status(f) => bodies::status(f, bytes, out),
        Message::GetMac => bodies::get_mac(bytes, out),
        Message::Control(c) => bodies::control_packet(c, bytes, out),
        Message::HubReply(f) => bodies::hub_reply(f, bytes, out),
    }
}
