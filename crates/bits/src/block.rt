// Blocks of 64 rows of W words: each 64 columns turned round, so that rows become columns.
// Rows are taken by their index, since the two that exchange lie J apart in one slice, and that it is lent, of at least so many words, is a rule of the project.
// How many strips there are and the mask follow from J, but the masks of a transposition are plainer written out than worked out.

ghost use Rattle.std.specs.Prelude.{◌≡◌, ℕ, ◌+◌, ◌*◌, ◌/◌, ◌%◌, ◌<◌, ◌≤◌, ◌&&◌, ◌||◌, length, if◌then◌else◌, nat_eq, nat_le, nat_lt};
ghost use Rattle.bits.specs.Blocks.{Mask, exchanged, swapped};
ghost use Rattle.bits.specs.Rows.{cell};

use crate::rows::{row_put, row_word};

// Row x and row x + J exchange in word i: the odd strips of the one for the even strips of the other.
fn exchange<const W: usize, const J: usize>(block: &mut [u64], x: usize, i: usize, mask: u64)
    requires { ((x + J) * W + W ≤ length block.old) × ((i < W) × (Mask J mask)) }
    ensures { (r k : ℕ) → cell block.new W r k ≡ (if nat_eq (k / 64) i then exchanged J x (cell block.old W) r k else cell block.old W r k) }
{
    let low = row_word(block, W, x, i);
    let high = row_word(block, W, x + J, i);
    let differ = (low >> J ^ high) & mask;
    row_put(block, W, x, i, low ^ differ << J);
    row_put(block, W, x + J, i, high ^ differ);
}

// Rows x and x + J exchange in each word.
fn exchange_rows<const W: usize, const J: usize>(block: &mut [u64], x: usize, mask: u64)
    requires { ((x + J) * W + W ≤ length block.old) × (Mask J mask) }
    ensures { (r k : ℕ) → k < 64 * W → cell block.new W r k ≡ exchanged J x (cell block.old W) r k }
{
    for i in 0..W {
        exchange::<W, J>(block, x, i, mask);
    }
}

// Each of the J rows from 2 * J * b on exchanges with the row J after it.
fn swap_strips<const W: usize, const J: usize>(block: &mut [u64], b: usize, mask: u64)
    requires { ((2 * J * b + 2 * J) * W ≤ length block.old) × ((2 * J * b + 2 * J ≤ 64) × (Mask J mask)) }
    ensures { (r k : ℕ) → k < 64 * W → cell block.new W r k ≡ (if nat_le (2 * J * b) r && nat_lt r (2 * J * b + 2 * J) then swapped J (cell block.old W) r k else cell block.old W r k) }
{
    let from = 2 * J * b;
    for i in 0..J {
        exchange_rows::<W, J>(block, from + i, mask);
    }
}

// Each of the 64 rows exchanges with the one J after or before it.
fn swap<const W: usize, const J: usize>(block: &mut [u64], n: usize, mask: u64)
    requires { (64 * W ≤ length block.old) × ((2 * J * n ≡ 64) × (Mask J mask)) }
    ensures { (r k : ℕ) → r < 64 → k < 64 * W → cell block.new W r k ≡ swapped J (cell block.old W) r k }
{
    for b in 0..n {
        swap_strips::<W, J>(block, b, mask);
    }
}

// Row r of each 64 columns becomes column r of them.
#[tactic(auto, using(crate::proofs::Transposed::masks))]
pub fn transpose<const W: usize>(block: &mut [u64])
    requires { 64 * W ≤ length block.old }
    ensures { (r k : ℕ) → r < 64 → k < 64 * W → cell block.new W r k ≡ cell block.old W (k % 64) (64 * (k / 64) + r) }
{
    swap::<W, 32>(block, 1, 0x0000_0000_ffff_ffff);
    swap::<W, 16>(block, 2, 0x0000_ffff_0000_ffff);
    swap::<W, 8>(block, 4, 0x00ff_00ff_00ff_00ff);
    swap::<W, 4>(block, 8, 0x0f0f_0f0f_0f0f_0f0f);
    swap::<W, 2>(block, 16, 0x3333_3333_3333_3333);
    swap::<W, 1>(block, 32, 0x5555_5555_5555_5555);
}
