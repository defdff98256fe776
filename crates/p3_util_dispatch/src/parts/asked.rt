//! How finely a reversal is cut if a caller asks for some number of parts.

ghost use Rattle.std.specs.Prelude.{◌≡◌, ◌+◌, ◌-◌, ◌*◌, ◌^◌, ◌<◌, ◌≤◌, IfNone, IfSome};

/// A list of more items is cut, whatever the size of its items.
const ONE_PART_ITEMS: usize = 1 << 16;

/// A list of more bytes is cut, however few items it has.
const ONE_PART_BYTES: usize = 1 << 21;

/// Fewer than `ONE_PART_ITEMS` items fit in `ONE_PART_BYTES` if each has more bytes than this.
const SHORT_ITEM: usize = 32;

/// The greatest number of items of `size` bytes that are left as one part.
#[tactic(auto, using(crate::proofs::Asked::quotient_fits, crate::proofs::Asked::quotient_next, crate::proofs::Asked::quotient_small))]
pub(crate) const fn one_part_items(size: usize) -> usize
    ensures items { result ≤ 2 ^ 16 }
    ensures bytes { result * size ≤ 2 ^ 21 }
    ensures most { result < 2 ^ 16 → 2 ^ 21 < (result + 1) * size }
{
    if size <= SHORT_ITEM {
        ONE_PART_ITEMS
    } else {
        ONE_PART_BYTES / size
    }
}

/// Into how many ranges a side of a grid is cut at most for this number of `parts`, 0 for 1. A grid that is cut into P ranges has
/// P(P + 1) / 2 patches, which are about two for each of `parts`. So the package passes half of the parts that a user asks for.
/// More patches would be smaller, and make less use of the caches.
#[tactic(auto, using(crate::proofs::Asked::root_fits, crate::proofs::Asked::root_most))]
const fn ranges_of_side(parts: usize) -> usize
    ensures some { 0 < result }
    ensures fits { (result - 1) * (result - 1) ≤ 4 * (parts - 1) }
    ensures most { 4 * (parts - 1) < 2 ^ 64 → 4 * (parts - 1) < result * result }
{
    1 + parts.saturating_sub(1).saturating_mul(4).isqrt()
}

/// Into how many ranges each side of a grid is cut at most, for a list of `len` items. Up to `one_part` items are one part.
pub(crate) const fn ranges_if_cut(len: usize, one_part: usize, parts: usize) -> Option<usize>
    ensures one { IfNone result (len ≤ one_part) }
    ensures cut { IfSome result (λ ranges. (one_part < len) × (0 < ranges)) }
    ensures fits { IfSome result (λ ranges. (ranges - 1) * (ranges - 1) ≤ 4 * (parts - 1)) }
    ensures most { IfSome result (λ ranges. 4 * (parts - 1) < 2 ^ 64 → 4 * (parts - 1) < ranges * ranges) }
{
    if len <= one_part {
        None
    } else {
        Some(ranges_of_side(parts))
    }
}
