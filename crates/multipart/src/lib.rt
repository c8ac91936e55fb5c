// Messages in parts: the assembler, and the cutter. A part is a counter byte and some data.
#![tactic(auto)]

mod cutter;

ghost use Rattle.std.specs.Prelude.{◌≡◌, ◌&&◌, ◌+◌, ◌≤◌, eqb, leb, length};
ghost use Rattle.wire.specs.Writing.{placed};
ghost use Rattle.multipart.specs.Assembler as specs;
ghost use Rattle.multipart.specs.Assembler.{TakesPart};

pub use cutter::cut;
use wire::{Part, Refusal};

#[derive(Clone, Copy)]
pub struct Progress {
    // How many parts are gathered, 0 to 255.
    pub parts: usize,
    // How many bytes are gathered, 0 to 500.
    pub bytes: usize,
    // Each part gets 26 until a 255, refused too, or a kept 0.
    pub discarding: bool,
}

// One record: what is gathered of a message, and its bytes.
#[derive(Clone, Copy)]
pub struct Assembler {
    pub progress: Progress,
    pub store: [u8; 500],
}

// The record after a part, and what the part gives: a message of this length at the front of the store, none while more is to come, or a refusal.
#[derive(Clone, Copy)]
pub struct Step {
    pub assembler: Assembler,
    pub answer: Result<Option<usize>, Refusal>,
}

// The progress after a part, and its answer.
#[derive(Clone, Copy)]
pub struct Taken {
    pub progress: Progress,
    pub answer: Result<Option<usize>, Refusal>,
}

// So many parts and bytes gathered.
fn gathered(parts: usize, bytes: usize) -> Progress
    ensures { result ≡ specs.gathered parts bytes }
{
    Progress {
        parts,
        bytes,
        discarding: false,
    }
}

// Nothing gathered, and parts are discarded.
fn discarding() -> Progress
    ensures { result ≡ specs.discarding }
{
    Progress {
        parts: 0,
        bytes: 0,
        discarding: true,
    }
}

// Nothing gathered, with a store of zeros.
pub fn fresh() -> Assembler
    ensures { result ≡ specs.fresh_assembler }
{
    Assembler {
        progress: gathered(0, 0),
        store: [0; 500],
    }
}

impl Progress {
    // Counts outside the limits.
    #[tactic(auto, unfolding(crate::specs::Assembler::outside))]
    fn outside(self) -> bool
        ensures { result ≡ specs.outside self }
    {
        255 < self.parts || 500 < self.bytes || (self.parts == 0 && 0 < self.bytes)
    }

    // A record whose counts lie outside the limits is taken as fresh.
    fn limited(self) -> Progress
        ensures { (result ≡ specs.limited self) × (result.parts ≤ 255) × (result.bytes ≤ 500) }
    {
        if self.outside() {
            return gathered(0, 0);
        }
        self
    }

    // Whether a counter is in turn.
    #[tactic(auto, unfolding(crate::specs::Assembler::in_turn))]
    fn in_turn(self, counter: u8) -> bool
        ensures { result ≡ specs.in_turn self counter }
    {
        !self.discarding && (counter == 255 || wire::wide(counter) == self.parts)
    }
}

// Bytes to the places of the store from `at` on.
fn put(store: &mut [u8; 500], at: usize, bytes: &[u8])
    requires { at + length bytes.now ≤ 500 }
    ensures { store.new ≡ placed at bytes.now store.old }
{
    let _ = wire::store(bytes, at, store);
}

// A 0 that is kept as a first part.
fn is_first(counter: u8, len: usize) -> bool
    ensures { result ≡ (eqb counter 0 && leb len 500) }
{
    counter == 0 && len <= 500
}

// A part out of turn.
fn out_of_turn(store: &mut [u8; 500], counter: u8, bytes: &[u8]) -> Taken
    ensures { specs.step_to result.progress store.new result.answer ≡ specs.out_of_turn store.old counter bytes.now }
{
    let answer = Err(Refusal::PartOutOfTurn);
    if counter == 255 {
        return Taken {
            progress: gathered(0, 0),
            answer,
        };
    }
    if is_first(counter, bytes.len()) {
        put(store, 0, bytes);
        return Taken {
            progress: gathered(1, bytes.len()),
            answer,
        };
    }
    Taken {
        progress: discarding(),
        answer,
    }
}

// A part that takes the message over 500 bytes.
fn over_long(counter: u8) -> Taken
    ensures { (s : _) → specs.step_to result.progress s result.answer ≡ specs.over_long s counter }
{
    let answer = Err(Refusal::MessageTooLong);
    if counter != 255 {
        return Taken {
            progress: discarding(),
            answer,
        };
    }
    Taken {
        progress: gathered(0, 0),
        answer,
    }
}

// A part that is kept.
fn kept(was: Progress, store: &mut [u8; 500], counter: u8, bytes: &[u8]) -> Taken
    requires { (was.parts ≤ 255) × (was.bytes + length bytes.now ≤ 500) }
    ensures { specs.step_to result.progress store.new result.answer ≡ specs.kept was store.old counter bytes.now }
{
    put(store, was.bytes, bytes);
    let total = was.bytes + bytes.len();
    if counter == 255 {
        return Taken {
            progress: gathered(0, 0),
            answer: Ok(Some(total)),
        };
    }
    Taken {
        progress: gathered(was.parts + 1, total),
        answer: Ok(None),
    }
}

// A counter and the bytes behind it.
fn counted(was: Progress, store: &mut [u8; 500], counter: u8, bytes: &[u8]) -> Taken
    requires { (was.parts ≤ 255) × (was.bytes ≤ 500) }
    ensures { specs.step_to result.progress store.new result.answer ≡ specs.counted was store.old counter bytes.now }
{
    if !was.in_turn(counter) {
        return out_of_turn(store, counter, bytes);
    }
    if 500 - was.bytes < bytes.len() {
        return over_long(counter);
    }
    kept(was, store, counter, bytes)
}

// One part, into a store that is lent: the progress after it, and the answer. 7 for a part without a counter, which changes nothing; 26 for a counter out
// of turn; 27 for a message above 500 bytes.
pub fn take_part(was: Progress, store: &mut [u8; 500], part: &[u8]) -> Taken
    ensures { TakesPart (specs.holding was store.old) part.now (specs.holding result.progress store.new) result.answer }
{
    if part.len() == 0 {
        return Taken {
            progress: was,
            answer: Err(Refusal::BadLength),
        };
    }
    counted(was.limited(), store, part[0], &part[1..])
}

impl Assembler {
    // The same for the record as a whole.
    pub fn take_part(self, part: &[u8]) -> Step
        ensures { TakesPart self part.now result.assembler result.answer }
    {
        let mut store = self.store;
        let taken = take_part(self.progress, &mut store, part);
        Step {
            assembler: Assembler {
                progress: taken.progress,
                store,
            },
            answer: taken.answer,
        }
    }
}

// The message of this length at the front of the store; empty where no message is that long.
pub fn message(store: &[u8; 500], len: usize) -> &[u8]
    ensures { result.now ≡ specs.message_of store.now len }
{
    wire::part_of(store, Part { start: 0, len })
}
