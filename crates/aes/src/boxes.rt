// SubBytes and its inverse, FIPS 197, sections 5.1.1 and 5.3.2. Each is worked out for eight bytes at a time; a byte, two rows and a state go through it alike.
ghost use Rattle.std.specs.Prelude.{◌≡◌, ◌∷◌, [], ℕ, ◌<◌, get_or};
ghost use Rattle.aes.specs.Packed.{each};
ghost use Rattle.aes.specs.Cipher.{four, rows, cell};

use super::packed::{pack, unpack};

pub(crate) trait Substitution {
    // What stands in the place of a byte.
    ghost image: { ℕ → ℕ };

    // Each of eight bytes; and it is a byte, whatever stood there.
    fn eight(w: u64) -> u64
        ensures each { result ≡ each image w }
        ensures bytes { (b : ℕ) → image b < 256 };
}

pub(crate) fn byte<S: Substitution>(b: u8) -> u8
    ensures { result ≡ S.image b }
{
    (S::eight(b as u64) % 256) as u8
}

pub(crate) fn two_rows<S: Substitution>(a: [u8; 4], b: [u8; 4]) -> [[u8; 4]; 2]
    ensures { result ≡ four (λ c. S.image (get_or a c 0)) ∷ four (λ c. S.image (get_or b c 0)) ∷ [] }
{
    unpack(S::eight(pack(a, b)))
}

pub(crate) fn state<S: Substitution>(s: [[u8; 4]; 4]) -> [[u8; 4]; 4]
    ensures { result ≡ rows (λ r c. S.image (cell s r c)) }
{
    let x = two_rows::<S>(s[0], s[1]);
    let y = two_rows::<S>(s[2], s[3]);
    [x[0], x[1], y[0], y[1]]
}
