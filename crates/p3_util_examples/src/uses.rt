//! Short uses of the calls.

ghost use Rattle.std.specs.Prelude.{◌≡◌, ◌≢◌, ◌+◌, ◌*◌, ◌%◌, ◌^◌, ◌<◌, ◌≤◌, ◌↔◌, IfOk, IsFalse, IsTrue, OnOk, length, unwrap_or, vec_len, zip};
ghost use Rattle.std.specs.Fn.{CalledAt};
ghost use Rattle.std.specs.Int.{is_power_of_two};
ghost use Rattle.std.specs.List.{FoldsTo};
ghost use Rattle.p3_util.specs.Flat.{flat};
ghost use Rattle.p3_util.specs.Levels.{lev};
ghost use Rattle.p3_util.specs.LinearMap.{put, value_at};
ghost use Rattle.p3_util.specs.Pieces.{padded_pieces, pieces};
ghost use Rattle.p3_util.specs.Region.{IsRegionTransposed, LiesInMatrix, items_of};
ghost use Rattle.p3_util.specs.Reversal.{IsReversal, IsReversible, IsZeroOrPowerOfTwo};
ghost use Rattle.p3_util.specs.Steps.{counted};
ghost use Rattle.p3_util.specs.SwapCounts.{reversal_swaps, square_swaps};
ghost use Rattle.p3_util.specs.Transpose.{IsTranspose};

use p3_util::array_serialization::{ArrayElement, deserialize, serialize};
use p3_util::linear_map::LinearMap;
use p3_util::places::{Cells, Places, SlicePlaces, Source, Swaps, Writes};
use p3_util::transpose::{
    Region, fits_matrix, transpose_region_on, transpose_source_split_on, transpose_square_on,
};
use p3_util::zip_eq::zip_eq;
use p3_util::{
    NoRoom, apply_to_chunks, as_base_slice_mut, fits_rows, flat_len, flatten_to_base,
    iter_array_chunks_padded, log2_ceil_usize, reconstitute_from_base, reverse_index_bits_on,
    reverse_slice_index_bits,
};
use std::alloc::{AllocError, Global};

/// Reverses `vals` by index bits if the length is a power of two.
pub fn reverse_power_of_two<F>(vals: &mut [F])
    ensures done { IsTrue (is_power_of_two (length vals.old)) → IsReversal vals.old vals.new }
    ensures left { IsFalse (is_power_of_two (length vals.old)) → vals.new ≡ vals.old }
{
    if vals.len().is_power_of_two() {
        reverse_slice_index_bits(vals);
    }
}

/// Writes the transpose of a part of a matrix and returns `true`, if the part lies in the matrix and both lists have
/// the length of the matrix. Otherwise returns `false` and changes nothing.
pub fn transpose_part_where_it_fits<C: Cells>(
    input: &[C::Item],
    out: &mut Writes<C>,
    part: Region,
    width: usize,
    height: usize,
) -> bool
    ensures done { IsTrue result
        → IsRegionTransposed part width height input.now (C.items out.old.holder)
        (C.items out.new.holder) }
    ensures left { IsFalse result → out.new ≡ out.old }
{
    if !fits_matrix(input.len(), out.len(), width, height) || !part.fits(width, height) {
        return false;
    }
    transpose_region_on(input, out, part, width, height);
    true
}

/// The number of levels that the split of a region with these sides needs.
#[tactic(auto, using(p3_util::proofs::Callers::levels_most))]
pub fn levels_of(rows: usize, cols: usize) -> u32
    ensures number { result ≡ lev rows cols }
    ensures most { rows * cols < 2 ^ 64 → result ≤ 57 }
{
    let tall = log2_ceil_usize(rows).saturating_sub(7);
    let wide = log2_ceil_usize(cols).saturating_sub(7);
    (tall + wide) as u32
}

/// Writes the transpose of a region of any source, with 64 levels, which are enough for every region. Returns the
/// number of writes.
#[tactic(auto, using(p3_util_kernels::proofs::TransposeLemmas::Halves::region_levels))]
pub fn transpose_source_by_splits<R, C>(
    input: &R,
    out: &mut C,
    region: Region,
    width: usize,
    height: usize,
) -> u128
where
    C: Cells,
    R: Source<Item = C::Item>,
    requires input_fits { length (R.items input.now) ≡ width * height }
    requires output_fits { length (C.items out.old) ≡ width * height }
    requires inside { LiesInMatrix region width height }
    ensures transposed { IsRegionTransposed region width height (R.items input.now)
        (C.items out.old) (C.items out.new) }
    ensures count { result ≡ counted 0 (items_of region) }
    ensures holder { C.same_holder (items_of region) out.old out.new }
{
    let mut out = Writes::new(out);
    transpose_source_split_on(input, &mut out, region, width, height, 64);
    out.writes()
}

/// Transposes a whole matrix of `2^log_size` rows of as many items in place.
#[tactic(auto, using(p3_util::proofs::Callers::whole_square))]
pub fn transpose_whole_square<S: Places>(m: &mut Swaps<S>, log_size: usize)
    requires fits { length (S.items m.old.holder) ≡ 2 ^ log_size * 2 ^ log_size }
    requires small { log_size < 64 }
    ensures order { IsTranspose (2 ^ log_size) (2 ^ log_size) (S.items m.old.holder)
        (S.items m.new.holder) }
    ensures count { m.new.count ≡ counted m.old.count (square_swaps (2 ^ log_size)) }
    ensures holder { S.same_holder (square_swaps (2 ^ log_size)) m.old.holder m.new.holder }
{
    transpose_square_on(m, 0, log_size, log_size);
}

/// Reverses a list of any holder by index bits, and returns the number of swaps.
pub fn count_swaps<S: Places>(places: &mut S) -> u128
    requires { IsReversible (length (S.items places.old)) }
    ensures order { IsReversal (S.items places.old) (S.items places.new) }
    ensures count { result ≡ reversal_swaps (length (S.items places.old)) }
    ensures holder { S.same_holder result places.old places.new }
{
    let mut m = Swaps::new(places);
    reverse_index_bits_on(&mut m);
    m.swaps()
}

/// The same for a slice. The function above makes the call over any holder, and this one makes the holder, so it knows
/// what is in the slice afterwards.
pub fn count_swaps_of_slice<T>(vals: &mut [T]) -> u128
    requires { IsReversible (length vals.old) }
    ensures order { IsReversal vals.old vals.new }
    ensures count { result ≡ reversal_swaps (length vals.old) }
{
    count_swaps(&mut SlicePlaces::new(vals))
}

/// Reverses the items of `rows`, taken as one list, by index bits and returns `true`. If their number does not fit in a
/// `usize`, or is neither zero nor a power of two, returns `false` and changes nothing.
pub fn reverse_items_where_they_fit<T, const N: usize>(rows: &mut [[T; N]]) -> bool
    ensures done { IsTrue result → IsReversal (flat rows.old) (flat rows.new) }
    ensures left { IsFalse result → rows.new ≡ rows.old }
    ensures fits { length rows.old * N < 2 ^ 64
        → (IsTrue result ↔ IsZeroOrPowerOfTwo (length rows.old * N)) }
{
    if flat_len(rows.len(), N).is_none() {
        return false;
    }
    let mut view = as_base_slice_mut(rows);
    let fits = fits_rows(view.len(), 1);
    if fits {
        count_swaps(&mut view);
    }
    fits
}

/// Makes elements of an extension field of the numbers, four numbers each, and flattens them again, which returns the
/// same numbers.
pub fn reconstituted_and_back(alloc: Global, numbers: Vec<u64>) -> Result<Vec<u64>, AllocError>
    requires { vec_len numbers % 4 ≡ 0 }
    ensures { IfOk result (λ again. again.items ≡ numbers.items) }
{
    let Ok(elements) = reconstitute_from_base::<u64, 4>(alloc, numbers) else {
        return Err(AllocError);
    };
    let Ok(again) = flatten_to_base(alloc, elements) else {
        return Err(AllocError);
    };
    Ok(again)
}

/// Counts `word` once more. If memory runs out, the map is as it was.
pub fn count_word<K: Eq + Copy + Drop>(
    counts: &mut LinearMap<K, u64>,
    word: K,
) -> Result<Option<u64>, NoRoom<(K, u64)>>
    requires { unwrap_or (value_at K.eq counts.old word) 0 + 1 < 2 ^ 64 }
    ensures { OnOk result (counts.new
        ≡ put K.eq counts.old word (unwrap_or (value_at K.eq counts.old word) 0 + 1)) }
{
    let count = counts.get(&word).copied().unwrap_or(0);
    counts.insert(word, count + 1)
}

/// Passes `bytes` to `absorb` in blocks of 64, in order. The last block may be shorter.
pub fn absorb_blocks<H: FnMut(&[u8]) + Drop>(bytes: &[u8], absorb: H)
    requires { H.IsAlwaysCallable absorb }
    ensures absorbed { (last : H)
        × FoldsTo (λ f piece g. CalledAt H.FnMut f piece tt g) absorb (pieces 64 bytes.now) last }
    ensures joined { flat (pieces 64 bytes.now) ≡ bytes.now }
{
    apply_to_chunks::<64, _, H>(bytes.iter().copied(), absorb);
}

/// Cuts `xs` into lanes of 4. If 4 does not divide the length, the last lane is filled up with `fill`.
pub fn lanes(alloc: Global, xs: &[u32], fill: u32) -> Result<Vec<[u32; 4]>, AllocError>
    ensures { IfOk result (λ v. v.items ≡ padded_pieces 4 fill xs.now) }
{
    iter_array_chunks_padded::<u32, 4, _>(xs.iter().copied(), fill).collect(alloc)
}

/// Why values and weights were not paired.
#[derive(Drop)]
pub enum PairError {
    Unequal,
    Memory,
}

/// Each value with its weight. Returns `Unequal` exactly if the lengths differ.
pub fn weighted(
    alloc: Global,
    values: &[u32],
    weights: &[u16],
) -> Result<Vec<(u32, u16)>, PairError>
    ensures pairs { IfOk result (λ v. v.items ≡ zip values.now weights.now) }
    ensures equal { IfOk result (λ _. length values.now ≡ length weights.now) }
    ensures unequal { (result ≡ Err PairError.Unequal) ↔ (length values.now ≢ length weights.now) }
{
    let Ok(pairs) = zip_eq(values.iter().copied(), weights.iter().copied(), ()) else {
        return Err(PairError::Unequal);
    };
    pairs.collect(alloc).map_err(|_| PairError::Memory)
}

/// Writes elements as a JSON list and reads them back, which returns the same elements.
pub fn elements_again<T: ArrayElement + Drop, const N: usize>(
    alloc: Global,
    elements: &[T; N],
) -> Result<[T; N], AllocError>
    ensures { IfOk result (λ again. again ≡ elements.now) }
{
    let value = serialize(alloc, elements)?;
    match deserialize(alloc, &value) {
        Ok(again) => Ok(again),
        Err(_) => Err(AllocError),
    }
}
