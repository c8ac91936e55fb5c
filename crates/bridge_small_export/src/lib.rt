// The opener of sealed messages in the small build, for programs in other languages.
#![tactic(auto)]

ghost use Rattle.wire.specs.Parts.{part, part_of};
ghost use Rattle.numbering.specs.Numbering.{context_of, Exported};

use aes::Small;

// Opens the first bytes of a payload as an encrypted message. The session after it is not handed out: each call begins with one that remembers nothing.
#[unsafe(no_mangle)]
pub extern "C" fn cloudgraze_small_open(
    key: &[u8; 16],
    nonce: &[u8; 5],
    minutes: u64,
    since: u64,
    time: u64,
    payload: &[u8; 512],
    len: usize,
    work: &mut [u8; 496],
) -> u64
    ensures { Exported (context_of key.now nonce.now minutes since time) (part_of payload.now (part 0 len)) work.old result work.new }
{
    numbering::open::<Small>(key, nonce, minutes, since, time, payload, len, work)
}
