//! The long path of bit reversal, in three passes: chunks, squares, and chunks again.
//!
//! A list of `2^k` items is seen as `2^half` rows of `2^c` items, with `half = k / 2` and `c = k - half`. These rows
//! are the chunks. Since `c` is `half` or `half + 1`, the rows form one square, or two squares side by side. So the
//! bits of an index are those of its row, then one bit for its square if there are two, and then those of its column.
//!
//! The first pass reverses the order of the chunks by index bits, and so reverses the bits of the row. The second pass
//! transposes each square, so the bits of the row and those of the column change places. The third pass does the same
//! as the first one, and so reverses the bits that were those of the column.
//!
//! [`reverse_index_bits_long`](crate::reverse::reverse_index_bits_long) makes the three passes. This module has the
//! second one. The other two reverse the order of rows, as the short path does.

ghost use Rattle.std.specs.Prelude.{◌≡◌, ◌+◌, ◌-◌, ◌*◌, ◌^◌, ◌<◌, ◌≤◌, length};
ghost use Rattle.p3_util_kernels.specs.Steps.{counted};
ghost use Rattle.p3_util_kernels.specs.SwapCounts.{square_swaps};
ghost use Rattle.p3_util_kernels.specs.SideBySide.{AreTransposed};

use crate::bits::pow2;
use crate::places::{Places, Swaps};
use crate::transpose::transpose_square_on;

/// Transposes the squares that lie side by side in `m`. The list is `2^log_size` rows of `2^log_stride` items. So there
/// is one square if the two numbers are equal, and there are two if `log_stride` is one more than `log_size`. A list of
/// n items takes at most n/2 swaps.
pub(crate) fn transpose_squares_on<S: Places>(m: &mut Swaps<S>, log_stride: usize, log_size: usize)
    requires within { log_size ≤ log_stride }
    requires at_most_two { log_stride ≤ log_size + 1 }
    requires whole { length (S.items m.old.holder) ≡ 2 ^ (log_size + log_stride) }
    requires len_fits { length (S.items m.old.holder) < 2 ^ 64 }
    requires count_fits { m.old.count < 2 ^ 128 }
    ensures transposed { AreTransposed (2 ^ (log_stride - log_size)) log_stride log_size
        (S.items m.old.holder) (S.items m.new.holder) }
    ensures count { m.new.count ≡ counted m.old.count
        (2 ^ (log_stride - log_size) * square_swaps (2 ^ log_size)) }
    ensures holder { S.same_holder (2 ^ (log_stride - log_size) * square_swaps (2 ^ log_size))
        m.old.holder m.new.holder }
{
    transpose_square_on(m, 0, log_stride, log_size);
    if log_stride > log_size {
        transpose_square_on(m, pow2(log_size), log_stride, log_size);
    }
}
