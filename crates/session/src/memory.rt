// The packet nonces that a session remembers: the last eight, newest first.
ghost use Rattle.std.specs.Prelude.{◌≡◌, ◌≤◌};
ghost use Rattle.wire.specs.Rules.{among};
ghost use Rattle.session.specs.Memory.{empty_memory, count_fits, limited, remembered, remembering};

use crate::NonceMemory;

impl NonceMemory {
    pub fn empty() -> NonceMemory
        ensures { result ≡ empty_memory }
    {
        NonceMemory {
            count: 0,
            nonces: [0; 8],
        }
    }

    // Whether its count lies within the limits.
    pub fn fits(self) -> bool
        ensures { result ≡ count_fits self }
    {
        self.count <= 8
    }

    // One whose count lies outside is taken as fresh.
    #[tactic(auto, unfolding(crate::specs::Memory::limited))]
    fn limited(self) -> NonceMemory
        ensures { (result ≡ limited self) × (result.count ≤ 8) }
    {
        if self.fits() {
            self
        } else {
            NonceMemory::empty()
        }
    }

    // Whether a packet nonce is remembered, by its number.
    pub fn holds(self, number: u32) -> bool
        ensures { result ≡ among number (remembered self) }
    {
        let memory = self.limited();
        memory.nonces[..memory.count].contains(&number)
    }

    // The memory after one more, which is put in front; eight are kept.
    pub fn remember(self, number: u32) -> NonceMemory
        ensures { result ≡ remembering self number }
    {
        let memory = self.limited();
        let n = memory.nonces;
        NonceMemory {
            count: (memory.count + 1).min(8),
            nonces: [number, n[0], n[1], n[2], n[3], n[4], n[5], n[6]],
        }
    }
}
