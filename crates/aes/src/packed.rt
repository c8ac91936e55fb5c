// Elements of the field of 256: FIPS 197, section 4.2, and the inverse of section 5.1.1. Eight are packed in a u64, a byte each, the first the lowest.
ghost use Rattle.std.specs.Prelude.{◌≡◌, ◌∷◌, [], ◌+◌};
ghost use Rattle.aes.specs.Field.{xtime, ◌•◌};
ghost use Rattle.aes.specs.Box.{inverse};
ghost use Rattle.aes.specs.Cipher.{four};
ghost use Rattle.aes.specs.Packed.{packed, element, each, two_rows, times_x};

// Two rows of a state, one behind the other.
pub fn pack(a: [u8; 4], b: [u8; 4]) -> u64
    ensures { result ≡ packed 8 (two_rows a b) }
{
    u64::from_le_bytes([a[0], a[1], a[2], a[3], b[0], b[1], b[2], b[3]])
}

// The two rows again.
pub fn unpack(w: u64) -> [[u8; 4]; 2]
    ensures { result ≡ four (element w) ∷ four (λ c. element w (4 + c)) ∷ [] }
{
    let b = w.to_le_bytes();
    [[b[0], b[1], b[2], b[3]], [b[4], b[5], b[6], b[7]]]
}

// Each as a polynomial, times x, modulo x^8 + rest.
pub fn times_x(w: u64, rest: u8) -> u64
    ensures { result ≡ each (times_x rest) w }
{
    ((w & 0x7f7f_7f7f_7f7f_7f7f) * 2) ^ ((w & 0x8080_8080_8080_8080) / 128 * rest as u64)
}

// Each times x in the field.
pub fn xtimes(w: u64) -> u64
    ensures { result ≡ each xtime w }
{
    times_x(w, 0x1b)
}

// One element times x: the lowest of eight, the others 0.
pub fn xtime(b: u8) -> u8
    ensures { result ≡ xtime b }
{
    (xtimes(b as u64) % 256) as u8
}

// Each of k times the one of a in its place.
fn products(k: u64, a: u64) -> u64
    ensures { result ≡ packed 8 (λ i. element k i • element a i) }
{
    let mut sum: u64 = 0;
    let mut digits = k;
    let mut x = a;
    for _ in 0..8usize {
        sum ^= (digits & 0x0101_0101_0101_0101) * 255 & x;
        digits = (digits & 0xfefe_fefe_fefe_fefe) / 2;
        x = xtimes(x);
    }
    sum
}

// The square of each: digit k counts for x^(2k).
fn squares(w: u64) -> u64
    ensures { result ≡ each (λ a. a • a) w }
{
    (w & 0x0101_0101_0101_0101)
        ^ ((w & 0x0202_0202_0202_0202) / 2 * 0x04)
        ^ ((w & 0x0404_0404_0404_0404) / 4 * 0x10)
        ^ ((w & 0x0808_0808_0808_0808) / 8 * 0x40)
        ^ ((w & 0x1010_1010_1010_1010) / 16 * 0x1b)
        ^ ((w & 0x2020_2020_2020_2020) / 32 * 0x6c)
        ^ ((w & 0x4040_4040_4040_4040) / 64 * 0xab)
        ^ ((w & 0x8080_8080_8080_8080) / 128 * 0x9a)
}

// The inverse of each, 0 for 0. Seven times it is multiplied by a and squared: a^2, a^6, a^14, .. a^254.
pub fn inverses(w: u64) -> u64
    ensures { result ≡ each inverse w }
{
    let mut x: u64 = 0x0101_0101_0101_0101;
    for _ in 0..7usize {
        x = squares(products(x, w));
    }
    x
}
