// The receiver of a serial line. Its progress, flags and counts, is passed by value through small functions; its store is lent.
#![tactic(auto)]

ghost use Rattle.std.specs.Prelude.{◌≡◌, true, false, ◌||◌, ◌+◌, ◌<◌, ◌≤◌, ℕ, eqb, length, get_or, max, MatchOption};
ghost use Rattle.line.specs.Receive as specs;
ghost use Rattle.line.specs.Line.{Received};
ghost use Rattle.line.specs.Feed as feeding;
ghost use Rattle.line.specs.Feed.{Skips, CountBounded, Unescapes, Feeds};
ghost use Rattle.line.specs.Moves as moves;
ghost use Rattle.line.specs.Escapes.{StandsAt, NothingAt, FirstStart, stands_for_byte};

use wire::{Part, Refusal};

#[derive(Clone, Copy)]
pub struct Progress {
    // A start byte has come, and its frame is not at its end.
    pub inside: bool,
    // The last byte was 5C.
    pub escaped: bool,
    // The size's low byte, while it alone has come.
    pub low: u8,
    // How many unescaped bytes have come, the size's two among them.
    pub got: usize,
    // The size, once both of its bytes have come.
    pub size: usize,
    // How many bytes of the frame have come on the line, its start byte and escape bytes among them.
    pub count: usize,
}

// One record for the line: what has come of a frame, and the bytes after its size.
#[derive(Clone, Copy)]
pub struct Receiver {
    pub progress: Progress,
    pub store: [u8; 512],
}

// What a byte may give: a frame whose bytes stand in the store, or a refusal and its place: the count of bytes on the line from the frame's
// start byte, itself 1, up to and including the byte that caused the refusal.
#[derive(Clone, Copy)]
pub enum Event {
    Frame {
        major: u8,
        minor: u8,
        wrapper: u8,
        len: usize,
    },
    Refused {
        refusal: Refusal,
        place: usize,
    },
}

// The record after a byte, and its event, if it gives one.
#[derive(Clone, Copy)]
pub struct Step {
    pub receiver: Receiver,
    pub event: Option<Event>,
}

// What is to be done with the store: nothing, a byte written, a frame's last byte written, or nothing and a refusal. `at` is a place of the
// store, `place` that of a refusal.
#[derive(Clone, Copy)]
enum Action {
    Keep,
    Put {
        at: usize,
        byte: u8,
    },
    Finish {
        at: usize,
        byte: u8,
        size: usize,
        place: usize,
    },
    Refuse {
        refusal: Refusal,
        place: usize,
    },
}

// The progress after a byte, and what is to be done with the store.
#[derive(Clone, Copy)]
struct Move {
    progress: Progress,
    action: Action,
}

// The progress of an idle receiver.
fn idle() -> Progress
    ensures { result ≡ specs.idle }
{
    Progress {
        inside: false,
        escaped: false,
        low: 0,
        got: 0,
        size: 5,
        count: 0,
    }
}

// The progress inside a frame.
fn reading(escaped: bool, low: u8, got: usize, size: usize, count: usize) -> Progress
    ensures { result ≡ specs.reading escaped low got size count }
{
    Progress {
        inside: true,
        escaped,
        low,
        got,
        size,
        count,
    }
}

// Idle, with a store of zeros.
pub fn fresh() -> Receiver
    ensures { result ≡ specs.fresh_receiver }
{
    Receiver {
        progress: idle(),
        store: [0; 512],
    }
}

// A refusal that leaves the receiver idle.
fn refuse(refusal: Refusal, place: usize) -> Move
    ensures { result ≡ moves.refuse refusal place }
{
    Move {
        progress: idle(),
        action: Action::Refuse { refusal, place },
    }
}

// A size that a frame may have.
fn within(size: usize) -> bool
    ensures { result ≡ specs.within size }
{
    (5..=512).contains(&size)
}

// The size is complete: refused where no frame has that size.
#[tactic(auto, unfolding(crate::specs::Moves::sized_move))]
fn sized(size: usize, count: usize) -> Move
    ensures { result ≡ moves.sized_move size count }
{
    if within(size) {
        Move {
            progress: reading(false, 0, 2, size, count),
            action: Action::Keep,
        }
    } else {
        refuse(Refusal::BadFrameSize, count)
    }
}

// The progress of a frame that is not at its end.
#[derive(Clone, Copy)]
struct InFrame {
    progress: Progress,
    ghost sized: { progress.size ≤ 512 },
    ghost unfinished: { progress.got < progress.size + 2 },
}

impl InFrame {
    // An unescaped byte after the size is for the next place of the store; the last one finishes the frame.
    #[tactic(auto, unfolding(crate::specs::Moves::stored_move))]
    fn stored(self, v: u8) -> Move
        requires { 2 ≤ self.progress.got }
        ensures { result ≡ moves.stored_move self.progress v }
    {
        let p = self.progress;
        let at = p.got - 2;
        if p.got == p.size + 1 {
            Move {
                progress: idle(),
                action: Action::Finish {
                    at,
                    byte: v,
                    size: p.size,
                    place: p.count,
                },
            }
        } else {
            Move {
                progress: reading(false, p.low, p.got + 1, p.size, p.count),
                action: Action::Put { at, byte: v },
            }
        }
    }

    // An unescaped byte: the size's low byte, its high byte, or one after the size.
    #[tactic(auto, unfolding(crate::specs::Moves::taken_move))]
    fn taken(self, v: u8) -> Move
        ensures { result ≡ moves.taken_move self.progress v }
    {
        let p = self.progress;
        match p.got {
            0 => Move {
                progress: reading(false, v, 1, p.size, p.count),
                action: Action::Keep,
            },
            1 => sized(usize::from(u16::from_le_bytes([p.low, v])), p.count),
            _ => self.stored(v),
        }
    }

    // A byte after 5C that is no start byte: refused where it is neither 3E nor 1C.
    #[tactic(auto, unfolding(crate::specs::Moves::unescaped_move))]
    fn unescaped(self, b: u8) -> Move
        ensures { result ≡ moves.unescaped_move self.progress b }
    {
        match b {
            0x3E => self.taken(0x7E),
            0x1C => self.taken(0x5C),
            _ => refuse(Refusal::BadEscape, self.progress.count),
        }
    }
}

impl Progress {
    // In the middle of a frame, by its size and its unescaped bytes.
    #[tactic(auto, unfolding(crate::specs::Receive::mid_frame))]
    fn mid_frame(self) -> bool
        ensures { result ≡ specs.mid_frame self }
    {
        self.inside && within(self.size) && self.got < self.size + 2
    }

    // Inside an unfinished frame, with a count below its limit.
    #[tactic(auto, unfolding(crate::specs::Receive::busy))]
    fn busy(self) -> bool
        ensures { result ≡ specs.busy self }
    {
        self.mid_frame() && self.count < 1029
    }

    // A byte inside a frame that is no start byte counts, and is looked at.
    #[tactic(auto, unfolding(crate::specs::Moves::in_frame_move))]
    fn in_frame(self, b: u8) -> Move
        requires { (self.size ≤ 512) × (self.got < self.size + 2) × (self.count < 1029) }
        ensures { result ≡ moves.in_frame_move (specs.counted self) b }
    {
        let p = Progress {
            count: self.count + 1,
            ..self
        };
        let frame = InFrame { progress: p };
        if p.escaped {
            frame.unescaped(b)
        } else if b == 0x5C {
            Move {
                progress: reading(true, p.low, p.got, p.size, p.count),
                action: Action::Keep,
            }
        } else {
            frame.taken(b)
        }
    }

    // The progress after a byte, and what is to be done with the store.
    #[tactic(auto, using(crate::proofs::Moves::busy_counts), unfolding(crate::specs::Moves::move_of))]
    fn step(self, b: u8) -> Move
        ensures { result ≡ moves.move_of self b }
    {
        if b == 0x7E {
            let progress = reading(false, 0, 0, 5, 1);
            if self.busy() {
                Move {
                    progress,
                    action: Action::Refuse {
                        refusal: Refusal::StartInFrame,
                        place: self.count + 1,
                    },
                }
            } else {
                Move {
                    progress,
                    action: Action::Keep,
                }
            }
        } else if self.busy() {
            self.in_frame(b)
        } else {
            Move {
                progress: self,
                action: Action::Keep,
            }
        }
    }
}

// A frame of this size is complete in the store: refused where its CRC differs.
#[tactic(auto, unfolding(crate::specs::Receive::finished))]
fn finished(store: &[u8; 512], size: usize, place: usize) -> Event
    requires { (5 ≤ size) × (size ≤ 512) }
    ensures { result ≡ specs.finished size place store.now }
{
    let at = size - 2;
    if crc::crc(&store[..at]) == wire::read_u16(store, at) {
        Event::Frame {
            major: store[0],
            minor: store[1],
            wrapper: store[2],
            len: size - 5,
        }
    } else {
        Event::Refused {
            refusal: Refusal::CrcDiffers,
            place,
        }
    }
}

// The action is done: the store is written, in one place at most, and the event given.
fn acted(store: &mut [u8; 512], action: Action) -> Option<Event>
    requires { moves.WithinLimits action }
    ensures { moves.ActsOn action store.old store.new result }
{
    match action {
        Action::Keep => None,
        Action::Put { at, byte } => {
            store[at] = byte;
            None
        }
        Action::Finish {
            at,
            byte,
            size,
            place,
        } => {
            store[at] = byte;
            Some(finished(store, size, place))
        }
        Action::Refuse { refusal, place } => Some(Event::Refused { refusal, place }),
    }
}

impl Receiver {
    // One byte: the record after it, and its event.
    #[tactic(auto, using(crate::proofs::Moves::move_limits))]
    pub fn step(self, b: u8) -> Step
        ensures { Received self b result.receiver result.event }
    {
        let mut store = self.store;
        let Move { progress, action } = self.progress.step(b);
        let event = acted(&mut store, action);
        Step {
            receiver: Receiver { progress, store },
            event,
        }
    }
}

// The progress after bytes that gave no event, and the place behind them.
#[derive(Clone, Copy)]
struct Skipped {
    progress: Progress,
    at: usize,
}

// An unescaped byte, and how many bytes it is on the line.
#[derive(Clone, Copy)]
pub struct Unescaped {
    pub byte: u8,
    pub width: usize,
}

// Whether a byte behind 5C stands for another: 3E or 1C. One product for both, since which of the two comes cannot be foretold: two tests
// joined by `|` make a decoder take 1.8 times as long over escaped bytes.
#[tactic(auto, using(crate::proofs::Escapes::one_of_two))]
fn stands_for_byte(e: u8) -> bool
    ensures { result ≡ stands_for_byte e }
{
    wire::wide(e ^ 0x3E) * wire::wide(e ^ 0x1C) == 0
}

// The unescaped byte that stands at a place: none at the end, at a start byte, and where the byte behind 5C is missing or stands for no other.
pub fn unescape_at(s: &[u8], at: usize) -> Option<Unescaped>
    ensures { MatchOption result (NothingAt s.now at) (λ u. StandsAt s.now at u.byte u.width) }
{
    let b = *s.get(at)?;
    match b {
        0x7E => None,
        0x5C => {
            let e = *s.get(at + 1)?;
            if stands_for_byte(e) {
                Some(Unescaped {
                    byte: e ^ 0x40,
                    width: 2,
                })
            } else {
                None
            }
        }
        _ => Some(Unescaped { byte: b, width: 1 }),
    }
}

// Bytes of a frame behind its size, up to its last, are put into the store.
fn body(
    store: &mut [u8; 512],
    low: u8,
    had: usize,
    size: usize,
    count: usize,
    s: &[u8],
    from: usize,
) -> Skipped
    requires { (2 ≤ had) × (5 ≤ size) × (size ≤ 512) × (had < size + 2) × CountBounded (specs.reading false low had size count) }
    ensures { Skips s.now from (specs.holding (specs.reading false low had size count) store.old) result.at (specs.holding result.progress store.new) }
{
    let mut i = from;
    for got in had..size + 1 {
        let Some(u) = unescape_at(s, i) else {
            return Skipped {
                progress: reading(false, low, got, size, count + (i - from)),
                at: i,
            };
        };
        store[got - 2] = u.byte;
        i += u.width;
    }
    Skipped {
        progress: reading(false, low, size + 1, size, count + (i - from)),
        at: i,
    }
}

// Whether 16 bytes stand from a place on, none of them a start byte.
fn sixteen_clear(s: &[u8], from: usize) -> bool
    ensures { result ≡ true → (from + 16 ≤ length s.now) × ((k : ℕ) → from ≤ k → k < from + 16 → get_or s.now k 0 ≡ 0x7E → ⊥) }
{
    if s.len() < from || s.len() - from < 16 {
        return false;
    }
    let mut any = false;
    for b in &s[from..from + 16] {
        any |= *b == 0x7E;
    }
    !any
}

// The place behind as many times 16 bytes as hold no start byte.
fn clear_end(s: &[u8], from: usize) -> usize
    ensures { (from ≤ result) × (result ≤ max from (length s.now)) × ((k : ℕ) → from ≤ k → k < result → get_or s.now k 0 ≡ 0x7E → ⊥) }
{
    let mut at = from;
    // No `for`: a turn takes 16 bytes.
    while sixteen_clear(s, at) {
        at += 16;
    }
    at
}

// The place of the first start byte from a place on; the end where there is none.
pub fn first_start(s: &[u8], from: usize) -> usize
    ensures { FirstStart s.now from result }
{
    // Byte by byte, behind the 16 bytes at once that hold none.
    for i in clear_end(s, from)..s.len() {
        if s[i] == 0x7E {
            return i;
        }
    }
    from.max(s.len())
}

// As many bytes as give no event and can be taken at once: noise, and bytes of a frame.
#[tactic(auto, using(crate::proofs::Moves::busy_counts))]
fn skip(progress: Progress, store: &mut [u8; 512], s: &[u8], from: usize) -> Skipped
    ensures { Skips s.now from (specs.holding progress store.old) result.at (specs.holding result.progress store.new) }
{
    if !progress.busy() {
        return Skipped {
            progress,
            at: first_start(s, from),
        };
    }
    if progress.escaped || progress.got < 2 {
        return Skipped { progress, at: from };
    }
    // A count that no line leads to may come to its limit: it is left to the step.
    if 1 + 2 * progress.got < progress.count {
        return Skipped { progress, at: from };
    }
    body(
        store,
        progress.low,
        progress.got,
        progress.size,
        progress.count,
        s,
        from,
    )
}

// The progress after some bytes, the event that they ended with, if any, and the place behind them.
#[derive(Clone, Copy)]
pub struct Advanced {
    pub progress: Progress,
    pub event: Option<Event>,
    pub used: usize,
}

// The bytes of `s` from `from` on, up to the first event or to the end, into a store that is lent.
#[tactic(auto, using(crate::proofs::Moves::move_limits))]
pub fn advance(start: Progress, store: &mut [u8; 512], s: &[u8], from: usize) -> Advanced
    ensures { Feeds s.now from (specs.holding start store.old) (feeding.fed_to result.progress store.new result.event result.used) }
{
    let mut progress = start;
    let mut i = from;
    // No `for`: a turn takes a byte, and behind it as many as give no event.
    while let Some(b) = s.get(i) {
        let Move {
            progress: next,
            action,
        } = progress.step(*b);
        let event = acted(store, action);
        i += 1;
        if event.is_some() {
            return Advanced {
                progress: next,
                event,
                used: i,
            };
        }
        let ran = skip(next, store, s, i);
        progress = ran.progress;
        i = ran.at;
    }
    Advanced {
        progress,
        event: None,
        used: i,
    }
}

// The payload of a frame that was just handed out, in the store lent here; empty above 507 bytes, and where it runs past the store.
pub fn frame_payload(store: &[u8], len: usize) -> &[u8]
    ensures { result.now ≡ specs.frame_payload len store.now }
{
    if 507 < len {
        return &store[0..0];
    }
    wire::part_of(store, Part { start: 3, len })
}

// One byte: the record is brought up to date in place, and its event is given.
pub fn receive(r: &mut Receiver, b: u8) -> Option<Event>
    ensures { Received r.old b r.new result }
{
    let Step { receiver, event } = r.step(b);
    *r = receiver;
    event
}
