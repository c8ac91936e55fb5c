// Encrypted UART messages and characteristic packets: sealing, and the parts of opening that depend on their layout.
#![tactic(auto)]

mod drafts;
mod opening;
mod sealing;

ghost use Rattle.std.specs.Prelude.{◌≡◌};
ghost use Rattle.envelope.specs.Blocks.{outside};

pub use drafts::{draft_message, draft_packet, write_front};
pub use opening::{
    blocks, blocks_in, clear, decipher, judge_characteristic, judge_length, judge_nonce,
    judge_room, judge_text, message_in, nonce_number, packet_in, packet_nonce,
};
pub use sealing::{seal, seal_characteristic};

// What the cipher of a sealer is given: the text's first `len` bytes, to stand behind what `write_front` writes.
#[derive(Clone, Copy)]
pub struct Draft {
    pub key: [u8; 16],
    // The key ID, or the user level's number.
    pub id: u8,
    // How many bytes of the text there are: whole blocks.
    pub len: usize,
    pub text: [u8; 496],
}

// Whether a length is below the least or above the most.
fn outside(least: usize, most: usize, n: usize) -> bool
    ensures { result ≡ outside least most n }
{
    n < least || most < n
}
