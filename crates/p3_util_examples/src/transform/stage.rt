//! One stage of a transform: the rows of each pair of neighbouring blocks are joined.

ghost use Rattle.std.specs.Prelude.{◌≡◌, ℕ, ◌+◌, ◌*◌, ◌^◌, ◌<◌, ◌≤◌, ◌≢◌, ◌⊎◌, length, slice_index};
ghost use Rattle.p3_util_examples.specs.Stages.{AreBelowPrime, AreBlocksJoined, AreJoined, SameRow};

use crate::transform::field::{PRIME, add, mul, sub};

/// Joins two rows: row `low` becomes the sum of itself and `twiddle` times row `high`, and row `high` becomes the
/// difference.
fn join_rows(values: &mut [u32], width: usize, low: usize, high: usize, twiddle: u32)
    requires apart { low < high }
    requires inside { high * width + width ≤ length values.old }
    requires twiddle { twiddle < PRIME }
    requires below { AreBelowPrime values.old }
    ensures below { AreBelowPrime values.new }
    ensures joined { AreJoined width low high twiddle values.old values.new }
    ensures others { (r : ℕ) → r ≢ low → r ≢ high → SameRow width r values.old values.new }
{
    for c in 0..width {
        let a = values[low * width + c];
        let b = mul(values[high * width + c], twiddle);
        values[low * width + c] = add(a, b);
        values[high * width + c] = sub(a, b);
    }
}

/// Joins the two halves of a block, row by row: `half` rows from `first` on, and as many after them.
fn join_halves(values: &mut [u32], width: usize, first: usize, half: usize, twiddles: &Twiddles)
    requires rows { first + 2 * half < 2 ^ 64 }
    requires inside { (first + 2 * half) * width ≤ length values.old }
    requires enough { (i : ℕ) → i < half → i * twiddles.now.stride
        < length twiddles.now.powers.now }
    requires powers { AreBelowPrime twiddles.now.powers.now }
    requires below { AreBelowPrime values.old }
    ensures below { AreBelowPrime values.new }
    ensures joined { (i : ℕ) → i < half → AreJoined width (first + i) (first + half + i)
        (slice_index twiddles.now.powers.now (i * twiddles.now.stride)) values.old values.new }
    ensures others { (r : ℕ) → (r < first) ⊎ (first + 2 * half ≤ r)
        → SameRow width r values.old values.new }
{
    for i in 0..half {
        let twiddle = twiddles.powers[i * twiddles.stride];
        join_rows(values, width, first + i, first + half + i, twiddle);
    }
}

/// The powers of a root. A stage uses every `stride`th of them.
#[derive(Clone, Copy)]
pub struct Twiddles<'a> {
    pub powers: &'a [u32],
    pub stride: usize,
}

/// Joins the two halves of each of `blocks` blocks, of `2 * half` rows each.
pub fn join_blocks(
    values: &mut [u32],
    width: usize,
    half: usize,
    blocks: usize,
    twiddles: &Twiddles,
)
    requires rows { blocks * (2 * half) < 2 ^ 64 }
    requires len { length values.old ≡ blocks * (2 * half) * width }
    requires enough { (i : ℕ) → i < half → i * twiddles.now.stride
        < length twiddles.now.powers.now }
    requires powers { AreBelowPrime twiddles.now.powers.now }
    requires below { AreBelowPrime values.old }
    ensures below { AreBelowPrime values.new }
    ensures joined { AreBlocksJoined width half blocks twiddles.now.stride twiddles.now.powers.now
        values.old values.new }
{
    for b in 0..blocks {
        join_halves(values, width, b * (2 * half), half, twiddles);
    }
}
