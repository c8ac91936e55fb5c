// The reply column of document 01's table.
ghost use Rattle.std.specs.Prelude.{◌≡◌};
ghost use Rattle.bridge.specs.Reply as table;

use crate::{Refused, Reply};
use wire::Refusal;

// The reply that a refusal of this number gets on the UART: none where no refusal has it.
#[tactic(auto, unfolding(crate::specs::Reply::entry_of))]
pub fn uart_reply(number: u8) -> Option<Reply>
    ensures { (table.reply_entry result ≡ table.entry_of number) × (result ≡ table.reply_for (table.entry_of number)) }
{
    match number {
        5 => Some(Reply::Error(9900)),
        6 => Some(Reply::Error(9900)),
        7 => Some(Reply::Error(9900)),
        10 => Some(Reply::Error(9903)),
        8 => Some(Reply::Error(9902)),
        9 => Some(Reply::Error(9902)),
        11 => Some(Reply::Error(9903)),
        12 => Some(Reply::Error(9900)),
        13 => Some(Reply::Error(9900)),
        14 => Some(Reply::Error(9900)),
        15 => Some(Reply::Error(9901)),
        16 => Some(Reply::Error(9900)),
        17 => Some(Reply::Error(9900)),
        18 => Some(Reply::Code(32)),
        19 => Some(Reply::Code(44)),
        20 => Some(Reply::Code(36)),
        21 => Some(Reply::Code(40)),
        22 => Some(Reply::Code(48)),
        23 => Some(Reply::Code(32)),
        24 => Some(Reply::Code(33)),
        _ => None,
    }
}

// The reply on the characteristic.
pub fn characteristic_reply(number: u8) -> Option<Reply>
    ensures { (table.reply_entry result ≡ table.characteristic_entry_of number) × (result ≡ table.reply_for (table.characteristic_entry_of number)) }
{
    if number < 18 || number == 25 {
        return None;
    }
    uart_reply(number)
}

// A refusal on the UART.
pub fn uart_refused(refusal: Refusal) -> Refused
    ensures { result ≡ table.uart_refused refusal }
{
    Refused {
        refusal,
        reply: uart_reply(refusal.number()),
    }
}

// A refusal on the characteristic.
pub fn characteristic_refused(refusal: Refusal) -> Refused
    ensures { result ≡ table.characteristic_refused refusal }
{
    Refused {
        refusal,
        reply: characteristic_reply(refusal.number()),
    }
}
