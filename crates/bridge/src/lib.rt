// The bridge: the opener on both routes, and the part of either slice that holds an accepted payload.
#![tactic(auto)]

mod blocks;
pub mod characteristic;
mod replies;
pub mod uart;

ghost use Rattle.std.specs.Prelude.{◌≡◌};
ghost use Rattle.bridge.specs.Place.{payload_at};

use access::Mode;
pub use blocks::judge_blocks;
use control::Command;
use message::Message;
pub use replies::{characteristic_refused, characteristic_reply, uart_refused, uart_reply};
use session::{Connection, Keys, Session};
use units::Seconds;
use wire::{Part, Refusal};

// What the opener of frames is given beside a frame and the work buffer.
#[derive(Clone, Copy)]
pub struct Context {
    pub session: Session,
    pub time: Seconds,
    pub keys: Keys,
    pub mode: Mode,
    // Whether encryption is required.
    pub required: bool,
}

// What the opener of characteristic packets is given beside a packet and the work buffer.
#[derive(Clone, Copy)]
pub struct Link {
    pub connection: Connection,
    pub keys: Keys,
    pub mode: Mode,
}

// The table's reply: an error type of the UART, or a result code.
#[derive(Clone, Copy)]
pub enum Reply {
    Error(u16),
    Code(u16),
}

// A refusal, and the reply that it gets, if any.
#[derive(Clone, Copy)]
pub struct Refused {
    pub refusal: Refusal,
    pub reply: Option<Reply>,
}

// A part of the frame's payload, or of the work buffer.
#[derive(Clone, Copy)]
pub enum Place {
    Frame(Part),
    Work(Part),
}

// The message and where its data lie, or a command's payload: what the parts in the message count from. The session after the frame goes into the next
// opening, also where the answer is a refusal.
#[derive(Clone, Copy)]
pub struct Opened {
    pub answer: Result<(Message, Place), Refused>,
    pub session: Session,
}

// The command and where its payload lies. The connection session after the packet goes into the next opening, also where the answer is a refusal.
// Not one generic struct with Opened: every signature and definition that says Opened would name two types, and the connection session would be `session`.
#[derive(Clone, Copy)]
pub struct OpenedCommand {
    pub answer: Result<(Command, Place), Refused>,
    pub connection: Connection,
}

// The payload of what was accepted, plain or deciphered, from the slice that holds it.
#[tactic(auto, unfolding(crate::specs::Place::payload_at))]
pub fn payload<'a>(frame: &'a [u8], work: &'a [u8], place: Place) -> &'a [u8]
    ensures { result.now ≡ payload_at frame.now work.now place }
{
    match place {
        Place::Frame(part) => wire::part_of(frame, part),
        Place::Work(part) => wire::part_of(work, part),
    }
}
