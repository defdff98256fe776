//! Functions that assert the condition of a call and then make the call. A test that uses them is
//! proved without the call's contract, and so without any fact about the lists of the test.

ghost use Rattle.std.specs.Prelude.{◌≡◌};

use crate::tests::checks::Shape;
use p3_util::bits::checked_log_size_sum;
use p3_util::places::{Cells, Places, SliceSource, Source, Swaps, Writes};
use p3_util::reverse::{
    fits_rows, reverse_chunks_on, reverse_index_bits_long, reverse_index_bits_on,
    reverse_index_bits_short, reverse_row_index_bits_on, reverse_slice_index_bits,
    reverse_slice_row_index_bits,
};
use p3_util::transpose::{
    Region, fits_matrix, fits_square, transpose, transpose_on, transpose_region_on,
    transpose_source_on, transpose_source_split_on, transpose_split_on, transpose_square_on,
};
use p3_util_examples::uses::levels_of;
use std::process::Abort;

/// A call that reorders a list by exchanges.
#[derive(Clone, Copy)]
pub(crate) enum Call {
    /// By index bits, on the path that the length selects.
    Reversal,
    /// The same on the short path.
    Short,
    /// The same on the long path.
    Long,
    /// The rows of this many items by index bits.
    Rows(usize),
    /// The logarithms of the number of chunks and of their size.
    Chunks(usize, usize),
    /// The base of a square, and the logarithms of its stride and its side.
    Square(usize, usize, usize),
}

/// Makes `call`, and returns the number of swaps.
pub(crate) fn count_swaps<S: Places>(rt: &impl Abort, places: &mut S, call: Call) -> u128 {
    match call {
        Call::Chunks(lb_num_chunks, lb_chunk_size) => {
            let mut m = Swaps::new(places);
            let size = checked_log_size_sum(lb_num_chunks, lb_chunk_size);
            assert!(rt; matches!(size, Some((_, size)) if size == m.len()));
            reverse_chunks_on(&mut m, lb_num_chunks, lb_chunk_size);
            m.swaps()
        }
        Call::Square(base, log_stride, log_size) => {
            transpose_square(rt, Swaps::new(places), base, log_stride, log_size)
        }
        _ => reverse_on(rt, Swaps::new(places), call),
    }
}

/// Reverses `m` by index bits, or its rows, and returns the number of swaps.
fn reverse_on<S: Places + Drop>(rt: &impl Abort, mut m: Swaps<S>, call: Call) -> u128 {
    let row_width = if let Call::Rows(width) = call {
        width
    } else {
        1
    };
    assert!(rt; fits_rows(m.len(), row_width));
    match call {
        Call::Rows(_) => reverse_row_index_bits_on(&mut m, row_width),
        Call::Short => reverse_index_bits_short(&mut m),
        Call::Long => {
            assert!(rt; m.len().is_power_of_two() && m.len() >= 4);
            reverse_index_bits_long(&mut m);
        }
        _ => reverse_index_bits_on(&mut m),
    }
    m.swaps()
}

/// Reverses `list`, or its rows, as a slice.
pub(crate) fn reverse_slice<F>(rt: &impl Abort, list: &mut [F], row_width: usize) {
    assert!(rt; fits_rows(list.len(), row_width));
    if row_width == 1 {
        reverse_slice_index_bits(list);
    } else {
        reverse_slice_row_index_bits(list, row_width);
    }
}

fn transpose_square<S: Places + Drop>(
    rt: &impl Abort,
    mut m: Swaps<S>,
    base: usize,
    log_stride: usize,
    log_size: usize,
) -> u128 {
    assert!(rt; fits_square(m.len(), base, log_stride, log_size));
    transpose_square_on(&mut m, base, log_stride, log_size);
    m.swaps()
}

/// Writes the transpose of `input` to `output` with the call on slices.
pub(crate) fn transpose_slice<T: Copy>(
    rt: &impl Abort,
    input: &[T],
    output: &mut [T],
    shape: Shape,
) {
    let Shape { width, height } = shape;
    assert!(rt; fits_matrix(input.len(), output.len(), width, height));
    transpose(input, output, width, height);
}

/// A call that writes the transpose of a matrix or of a region.
#[derive(Clone, Copy)]
pub(crate) enum Put {
    /// From a slice.
    On,
    /// From any source.
    SourceOn,
    /// Of a region.
    Region(Region),
    /// Of the whole matrix, by a split with at most this many levels.
    Split(u32),
    /// The same from any source.
    SourceSplit(u32),
}

/// Writes the transpose of `input` to `cells`, and returns the number of writes.
pub(crate) fn count_writes<C: Cells>(
    rt: &impl Abort,
    call: Put,
    input: &[C::Item],
    cells: &mut C,
    shape: Shape,
) -> u128 {
    let Shape { width, height } = shape;
    assert!(rt; fits_matrix(input.len(), cells.len(), width, height));
    match call {
        Put::Split(levels) | Put::SourceSplit(levels) => {
            split_on(rt, call, input, Writes::new(cells), shape).0
        }
        _ => put_on(rt, call, input, Writes::new(cells), shape),
    }
}

fn put_on<C: Cells + Drop>(
    rt: &impl Abort,
    call: Put,
    input: &[C::Item],
    mut out: Writes<C>,
    shape: Shape,
) -> u128 {
    let Shape { width, height } = shape;
    assert!(rt; fits_matrix(input.len(), out.len(), width, height));
    match call {
        Put::Region(region) => {
            assert!(rt; region.fits(width, height));
            transpose_region_on(input, &mut out, region, width, height);
        }
        Put::SourceOn => transpose_source_on(&SliceSource::new(input), &mut out, width, height),
        _ => transpose_on(input, &mut out, width, height),
    }
    out.writes()
}

/// The region that is a whole matrix.
pub(crate) fn whole(shape: Shape) -> Region
    ensures { result ≡ record {
      row_start = 0;
      row_end = shape.height;
      col_start = 0;
      col_end = shape.width;
    } }
{
    Region {
        row_start: 0,
        row_end: shape.height,
        col_start: 0,
        col_end: shape.width,
    }
}

/// Writes the transpose of a whole matrix by a split. Returns the number of writes and how many
/// splits are nested.
pub(crate) fn split_on<C: Cells + Drop>(
    rt: &impl Abort,
    call: Put,
    input: &[C::Item],
    mut out: Writes<C>,
    shape: Shape,
) -> (u128, u32) {
    let Shape { width, height } = shape;
    assert!(rt; fits_matrix(input.len(), out.len(), width, height));
    let levels = if let Put::Split(levels) | Put::SourceSplit(levels) = call {
        levels
    } else {
        64
    };
    assert!(rt; levels_of(height, width) <= levels);
    let region = whole(shape);
    let nested = if let Put::SourceSplit(_) = call {
        let source = SliceSource::new(input);
        transpose_source_split_on(&source, &mut out, region, width, height, levels)
    } else {
        transpose_split_on(input, &mut out, region, width, height, levels)
    };
    (out.writes(), nested)
}

/// Writes the transpose of a matrix from one view to another, and returns the number of writes.
pub(crate) fn put_between<R, C>(rt: &impl Abort, input: &R, cells: &mut C, shape: Shape) -> u128
where
    C: Cells,
    R: Source<Item = C::Item>,
{
    assert!(rt; fits_matrix(input.len(), cells.len(), shape.width, shape.height));
    let mut out = Writes::new(cells);
    transpose_source_on(input, &mut out, shape.width, shape.height);
    out.writes()
}
