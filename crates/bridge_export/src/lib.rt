// The opener of sealed messages, for programs in other languages.
#![tactic(auto)]

ghost use Rattle.std.specs.Prelude.{◌≡◌, length};
ghost use Rattle.wire.specs.Parts.{part, part_of};
ghost use Rattle.bridge.specs.Opener.{opened, work_after};
ghost use Rattle.numbering.specs.Numbering.{packed_answer, context_of};

use aes::Small;

// Opens the first bytes of a payload as an encrypted message. The session after it is not handed out: each call begins with one that remembers nothing.
#[unsafe(no_mangle)]
pub extern "C" fn cloudgraze_open(
    key: &[u8; 16],
    nonce: &[u8; 5],
    minutes: u64,
    since: u64,
    time: u64,
    payload: &[u8; 512],
    len: usize,
    work: &mut [u8; 496],
) -> u64
    ensures { (result ≡ packed_answer (opened (context_of key.now nonce.now minutes since time) (length work.old) 1 128 (part_of payload.now (part 0 len))).answer)
        × (work.new ≡ work_after (context_of key.now nonce.now minutes since time) 1 128 (part_of payload.now (part 0 len)) work.old) }
{
    numbering::open::<Small>(key, nonce, minutes, since, time, payload, len, work)
}
