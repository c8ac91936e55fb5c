// Sessions, connection sessions and the packet nonces that they remember; keys and which of them serves a level in a mode.
#![tactic(auto)]

mod memory;

ghost use Rattle.std.specs.Prelude.{◌≡◌};
ghost use Rattle.wire.specs.Choice.{pick};
ghost use Rattle.session.specs.Memory.{remembering};
ghost use Rattle.session.specs.Session.{memory_after, no_session, session_there, with_nonce, whole_minutes, valid_at, session_remembering};
ghost use Rattle.session.specs.Session.{no_connection, connection_there, with_data, connection_remembering};
ghost use Rattle.session.specs.Keys.{key_for, key_for_number};

use access::{Level, Mode};
use units::{Minutes, Seconds};

// The packet nonces of the last encrypted messages that passed all of 10 to 13, each a number of three bytes.
#[derive(Clone, Copy)]
pub struct NonceMemory {
    // How many are remembered, 0 to 8. Beside the places and no slice of them: programs give and print counts above 8, which mean none.
    pub count: usize,
    // Newest first.
    pub nonces: [u32; 8],
}

// The user's session. There is none where held is false, or where the memory's count is above 8 (`is_there`).
#[derive(Clone, Copy)]
pub struct Session {
    // Beside the fields and no Option over them: programs print the other fields of a session that is none.
    pub held: bool,
    pub nonce: [u8; 5],
    pub timeout: Minutes,
    pub since: Seconds,
    pub memory: NonceMemory,
}

// A connection session, which does not run out.
#[derive(Clone, Copy)]
pub struct Connection {
    // As in Session.
    pub held: bool,
    pub nonce: [u8; 5],
    pub validation: [u8; 4],
    pub memory: NonceMemory,
}

// The keys that are held.
#[derive(Clone, Copy)]
pub struct Keys {
    pub admin: Option<[u8; 16]>,
    pub member: Option<[u8; 16]>,
    pub basic: Option<[u8; 16]>,
    pub setup: Option<[u8; 16]>,
}

// The one function that converts between the units, for `valid_at`: minutes that have passed whole. Downwards, so that no number overflows.
fn whole_minutes(t: Seconds) -> Minutes
    ensures { result ≡ whole_minutes t }
{
    Minutes(t.0 / 60)
}

// The memory after an accepted session nonce: kept where it equals the one held, else empty.
#[tactic(auto, unfolding(crate::specs::Session::memory_after))]
fn memory_after(there: bool, old: [u8; 5], memory: NonceMemory, nonce: [u8; 5]) -> NonceMemory
    ensures { result ≡ memory_after there old memory nonce }
{
    if there && old == nonce {
        memory
    } else {
        NonceMemory::empty()
    }
}

// The memory with one more packet nonce, where there is a session.
fn memory_with(there: bool, memory: NonceMemory, number: u32) -> NonceMemory
    ensures { result ≡ pick there (remembering memory number) memory }
{
    if there {
        memory.remember(number)
    } else {
        memory
    }
}

impl Session {
    pub fn none() -> Session
        ensures { result ≡ no_session }
    {
        Session {
            held: false,
            nonce: [0; 5],
            timeout: Minutes(0),
            since: Seconds(0),
            memory: NonceMemory::empty(),
        }
    }

    // Whether there is one, run out or not. One whose memory's count lies outside its limits is none.
    #[tactic(auto, unfolding(crate::specs::Session::session_there))]
    pub fn is_there(self) -> bool
        ensures { result ≡ session_there self }
    {
        self.held && self.memory.fits()
    }

    // The session after a session nonce message is accepted.
    pub fn with_nonce(self, nonce: [u8; 5], timeout: Minutes, now: Seconds) -> Session
        ensures { result ≡ with_nonce self nonce timeout now }
    {
        Session {
            held: true,
            nonce,
            timeout,
            since: now,
            memory: memory_after(self.is_there(), self.nonce, self.memory, nonce),
        }
    }

    // Whether there is a session that has not run out.
    pub fn valid_at(self, now: Seconds) -> bool
        ensures { result ≡ valid_at self now }
    {
        if now.0 < self.since.0 {
            return false;
        }
        let passed = whole_minutes(Seconds(now.0 - self.since.0));
        if passed.0 < self.timeout.0 {
            return self.is_there();
        }
        false
    }

    // The session after an encrypted message that passed all of 10 to 13: the number of its packet nonce is remembered. One that is none stays as it is.
    pub fn remember(self, number: u32) -> Session
        ensures { result ≡ session_remembering self number }
    {
        Session {
            memory: memory_with(self.is_there(), self.memory, number),
            ..self
        }
    }
}

impl Connection {
    pub fn none() -> Connection
        ensures { result ≡ no_connection }
    {
        Connection {
            held: false,
            nonce: [0; 5],
            validation: [0; 4],
            memory: NonceMemory::empty(),
        }
    }

    // Whether there is one. One whose memory's count lies outside its limits is none. A trait for this line, which stands in Session too, would be longer.
    #[tactic(auto, unfolding(crate::specs::Session::connection_there))]
    pub fn is_there(self) -> bool
        ensures { result ≡ connection_there self }
    {
        self.held && self.memory.fits()
    }

    // The connection session after session data is accepted.
    pub fn with_data(self, nonce: [u8; 5], validation: [u8; 4]) -> Connection
        ensures { result ≡ with_data self nonce validation }
    {
        Connection {
            held: true,
            nonce,
            validation,
            memory: memory_after(self.is_there(), self.nonce, self.memory, nonce),
        }
    }

    // The connection session after a packet that passed all of 10 to 13, in the same way.
    pub fn remember(self, number: u32) -> Connection
        ensures { result ≡ connection_remembering self number }
    {
        Connection {
            memory: memory_with(self.is_there(), self.memory, number),
            ..self
        }
    }
}

impl Keys {
    // The key that serves a level in a mode.
    pub fn serving(self, mode: Mode, level: Level) -> Option<[u8; 16]>
        ensures { result ≡ key_for self mode level }
    {
        match (mode, level) {
            (Mode::Normal, Level::Admin) => self.admin,
            (Mode::Normal, Level::Member) => self.member,
            (Mode::Normal, Level::Basic) => self.basic,
            (Mode::Setup, Level::Setup) => self.setup,
            _ => None,
        }
    }

    // The key that serves the level with a number in a mode.
    pub fn serving_number(self, mode: Mode, number: u8) -> Option<[u8; 16]>
        ensures { result ≡ key_for_number self mode number }
    {
        self.serving(mode, Level::try_from(number).ok()?)
    }
}
