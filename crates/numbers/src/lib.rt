// Little-endian numbers: read from the caller's bytes, and stored. The values are u64, the places usize.
#![tactic(auto)]

ghost use Rattle.std.specs.Prelude.{◌≡◌, ◌+◌, ◌≤◌, ◌<◌, ◌^◌, length};
ghost use Rattle.numbers.specs.Number.{number_at, digits, store};
ghost use Rattle.numbers.specs.Signed.{signed_of, unsigned_of};

// The number of k bytes at a place: from the last byte, the greatest, to the first. A loop serves every width, where `from_le_bytes` takes
// an array of one.
pub fn read(s: &[u8], at: usize, k: usize) -> u64
    requires { (k ≤ 8) × (at + k ≤ length s.now) }
    ensures { (result ≡ number_at k s.now at) × (result < 256 ^ k) }
{
    let mut number = 0;
    for i in (0..k).rev() {
        number = 256 * number + u64::from(s[at + i]);
    }
    number
}

// Stores the k low bytes of v from a place on.
pub fn write(out: &mut [u8], at: usize, k: usize, v: u64)
    requires { at + k ≤ length out.old }
    ensures { out.new ≡ store out.old at (digits k v) }
{
    let mut left = v;
    for byte in &mut out[at..at + k] {
        *byte = (left % 256) as u8;
        left /= 256;
    }
}

// The signed number that a number of 8 bytes stands for.
#[tactic(auto, using(crate::proofs::TwosComplement::signed_is))]
pub fn signed(v: u64) -> i64
    ensures { result ≡ signed_of v }
{
    v.cast_signed()
}

// The number of 8 bytes that stands for a signed number.
#[tactic(auto, using(crate::proofs::TwosComplement::unsigned_is))]
pub fn unsigned(z: i64) -> u64
    ensures { result ≡ unsigned_of z }
{
    z.cast_unsigned()
}
