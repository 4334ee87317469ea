// Sets of numbers as bytes, the highest first: number k is bit k % 8 of the byte that k / 8 bytes follow.
// Byte by byte: what is read may have any number of bytes up to 32, and writing goes the same way, so that one law of a byte serves both.

ghost use Rattle.std.specs.Prelude.{◌≡◌, ℕ, ◌*◌, ◌/◌, ◌%◌, ◌<◌, ◌≤◌, Bool, ◌&&◌, ◌||◌, length, ◌==◌};
ghost use Rattle.bits.specs.Sets.{Same, byte_of, in_bytes, member, set_bytes};
ghost use Rattle.model.specs.Bit.{bit};

use crate::set::WIDE;

// Adds the numbers that a byte names: it is the one that j bytes follow.
fn add_byte(words: &mut [u64], j: usize, byte: u8)
    requires { j < 8 * length words.old }
    ensures { (k : ℕ) → member words.new k ≡ ((k / 8 == j && bit byte (k % 8)) || member words.old k) }
{
    words[j / 8] |= u64::from(byte) << (8 * (j % 8));
}

// The set that at most 32 bytes name.
pub fn read(bytes: &[u8]) -> [u64; WIDE]
    requires { length bytes.now ≤ 32 }
    ensures { (k : ℕ) → member result k ≡ in_bytes bytes.now k }
{
    let mut words = [0; WIDE];
    for (j, byte) in bytes.iter().rev().enumerate() {
        add_byte(&mut words, j, *byte);
    }
    words
}

// The byte of the set that j bytes follow.
fn byte_at(words: &[u64], j: usize) -> u8
    requires { j < 8 * length words.now }
    ensures { result ≡ byte_of (member words.now) j }
{
    (words[j / 8] >> (8 * (j % 8)) & 0xff) as u8
}

pub fn write(words: &[u64; WIDE]) -> [u8; 32]
    ensures { (f : ℕ → Bool) → Same f (member words.now) → result ≡ set_bytes 32 f }
{
    std::array::from_fn(|i| byte_at(words, 31 - i))
}
