// What both routes do alike: what they ask of an encrypted payload before anything else, and what a refusal leaves of it.
ghost use Rattle.std.specs.Prelude.{◌≡◌};
ghost use Rattle.wire.specs.Refusals.{checked_by};
ghost use Rattle.bridge.specs.Opener.{block_rules};
ghost use Rattle.bridge.specs.Opening.{work_by};

use crate::Refused;
use wire::Refusal;

// 7 and 25.
pub fn judge_blocks(payload: &[u8], room: usize) -> Result<(), Refusal>
    ensures { result ≡ checked_by (block_rules payload.now room) }
{
    envelope::judge_length(payload)?;
    envelope::judge_room(payload, room)
}

// A refusal leaves the first n work bytes zero.
pub fn clear_refused<A>(answer: &Result<A, Refused>, work: &mut [u8], n: usize)
    ensures { work.new ≡ work_by n work.old answer.now }
{
    if answer.is_err() {
        envelope::clear(work, n);
    }
}
