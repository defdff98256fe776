//! Squares of items that are transposed in registers, for holders that can read, write and interleave registers.
//!
//! A *register* holds some items, one after another. The rows of a square, one after another, are one list, which is in
//! some registers. A *stage* interleaves the first half of this list with the second half, as a perfect shuffle of
//! cards does. Two stages turn the rows of a square of 4 by 4 into its columns:
//!
//! ```text
//!              first half                  second half
//! the rows     a0 a1 a2 a3  b0 b1 b2 b3    c0 c1 c2 c3  d0 d1 d2 d3
//! stage one    a0 c0 a1 c1  a2 c2 a3 c3    b0 d0 b1 d1  b2 d2 b3 d3
//! stage two    a0 b0 c0 d0  a1 b1 c1 d1    a2 b2 c2 d2  a3 b3 c3 d3
//! ```
//!
//! A square of 2 rows takes one stage, and a square of 8 rows takes three. The same is true of several squares side by
//! side, whose rows have 8 items together. So 8 rows of squares, in four registers of two rows each, are transposed at
//! once. `low` and `high` interleave the halves of two registers. They are one instruction each, which manuals name
//! `unpack` (x86-64) or `zip` (aarch64).
//!
//! A stage here rotates the bits of an item's index by one, while a stage of
//! [`butterfly_4x4`](p3_util_kernels::transpose::butterfly_4x4) exchanges one bit of the row number with the same bit
//! of the column number: after two stages of either, the two numbers are exchanged.

ghost use Rattle.std.specs.Prelude.{◌≡◌, ℕ, ◌+◌, ◌-◌, ◌*◌, ◌/◌, ◌%◌, ◌^◌, ◌<◌, ◌≤◌, ◌⊎◌, List, [], ◌∷◌, ◌++◌, length, refl, slice_get, slice_index};
ghost use Rattle.std.proofs.Common.{arith, length-append};
ghost use Rattle.p3_util_fast.specs.Registers.{AreDisjoint, AreColumns, AreInterleaved, AreLoaded, AreReached, AreStored, IsNextStage, IsSide, IsRunStored, IsStored, items_of_four};

/// What a function returns for 0 to 7 as its last argument. With a loop, the compiler would move registers back and
/// forth in the loop over the blocks.
macro_rules! eight {
    ($value:ident($($given:expr),*)) => {
        [
            $value($($given,)* 0),
            $value($($given,)* 1),
            $value($($given,)* 2),
            $value($($given,)* 3),
            $value($($given,)* 4),
            $value($($given,)* 5),
            $value($($given,)* 6),
            $value($($given,)* 7),
        ]
    };
}

pub(crate) mod blocks;
pub(crate) mod line_blocks;
pub(crate) mod tiles;

/// Some items, one after another, as many for each register of a type.
pub(crate) trait Register<T>: Copy {
    /// The items of one half of a register.
    type Half: Copy;

    ghost items: { Self → List T };

    ghost half_items: { Self.Half → List T };

    /// The number of items of a half, which is also the number of rows of a square.
    const SIDE: usize;

    ghost SIDE: { ℕ };

    /// Interleaves the first halves of two registers.
    fn low(self, other: Self) -> Self
        ensures { AreInterleaved SIDE 0 0 (items self) (items other) (items result) };

    /// Interleaves the second halves of two registers.
    fn high(self, other: Self) -> Self
        ensures { AreInterleaved SIDE SIDE SIDE (items self) (items other) (items result) };

    /// A register whose first half is this one. Its second half may be anything.
    fn from_half(first: Self::Half) -> Self
        ensures { (t : ℕ) → t < SIDE → slice_get (items result) t ≡ slice_get (half_items first) t };

    /// Both halves of a register.
    fn halves(self) -> (Self::Half, Self::Half)
        ensures first { (t : ℕ) → t < SIDE → slice_get (half_items result.0) t ≡ slice_get (items self) t }
        ensures second { (t : ℕ) → t < SIDE → slice_get (half_items result.1) t ≡ slice_get (items self) (SIDE + t) };

    ghost full: { (a : Self) → length (items a) ≡ 2 * SIDE };
}

/// A list in which a run of items, half a register, can be read at once.
///
/// A holder also says which runs may be read, by `may`. A function that is generic over this trait is proved for
/// whatever it says, so it reads no run but those for which its own `requires` asks.
pub(crate) trait Loads<T, D: Register<T>> {
    ghost items: { Self → List T };

    ghost Reach: { Type 0 };

    /// What `may` and `may_stream` depend on, such as the length of the list.
    ghost reach: { Self → Reach };

    /// The run from this place on may be read. If the holder implements [`Runs`], it may also be written.
    ghost may: { Reach → ℕ → Type 0 };

    /// Such a holder may also stream it, which may need an aligned place and a fence later on.
    ghost may_stream: { Reach → ℕ → Type 0 };

    /// Reads the run from `place` on.
    fn load(&self, place: usize) -> D::Half
        requires { may (reach self.now) place }
        ensures { (t : ℕ) → t < D.SIDE → slice_get (D.half_items result) t ≡ slice_get (items self.now) (place + t) };

    ghost len_fits: { (a : Self) → length (items a) < 2 ^ 63 };
}

/// A list in which such a run can also be written. No store changes what `may` and `may_stream` say.
pub(crate) trait Runs<T, D: Register<T>>: Loads<T, D> {
    /// `same_holder n a b` says that b is the holder a after runs of n items together were written.
    ghost same_holder: { ℕ → Self → Self → Type 0 };

    /// Writes the run from `place` on.
    fn store(&mut self, place: usize, run: D::Half)
        requires { Self.may (Self.reach self.old) place }
        ensures stored { IsRunStored D.SIDE place (D.half_items run) (Self.items self.old) (Self.items self.new) }
        ensures reach { Self.reach self.new ≡ Self.reach self.old }
        ensures holder { same_holder D.SIDE self.old self.new };

    /// Does the same as `store`. It is for a run that the kernel does not use again, so a holder may store it past the
    /// caches. No clause says that the run is not used again: that would take longer, and leave the same items.
    fn stream(&mut self, place: usize, run: D::Half)
        requires { Self.may_stream (Self.reach self.old) place }
        ensures stored { IsRunStored D.SIDE place (D.half_items run) (Self.items self.old) (Self.items self.new) }
        ensures reach { Self.reach self.new ≡ Self.reach self.old }
        ensures holder { same_holder D.SIDE self.old self.new }
    {
        self.store(place, run);
    }

    ghost may_both: { (r : Self.Loads.Reach) (p : ℕ) → Self.Loads.may_stream r p → Self.Loads.may r p };

    ghost same_holder_refl: { (a : Self) → same_holder 0 a a };

    ghost same_holder_trans: { (m n all : ℕ) (a b c : Self) → same_holder m a b → same_holder n b c
        → m + n ≡ all → same_holder all a c };
}

/// Four registers.
#[derive(Drop)]
pub(crate) struct Four<D> {
    pub a: D,
    pub b: D,
    pub c: D,
    pub d: D,
}

/// Interleaves the items of the first two registers with those of the last two.
#[inline(always)]
fn next_stage<T, D: Register<T>>(four: Four<D>) -> Four<D>
    ensures { IsNextStage D.SIDE (items_of_four D.items four) (items_of_four D.items result) }
{
    let Four { a, b, c, d } = four;
    Four {
        a: a.low(c),
        b: a.high(c),
        c: b.low(d),
        d: b.high(d),
    }
}

/// Reads two runs and interleaves them.
#[inline(always)]
fn load_two<T, D: Register<T>, S: Loads<T, D>>(list: &S, first: usize, second: usize) -> D
    requires first { S.may (S.reach list.now) first }
    requires second { S.may (S.reach list.now) second }
    ensures { AreInterleaved D.SIDE first second (S.items list.now) (S.items list.now) (D.items result) }
{
    D::from_half(list.load(first)).low(D::from_half(list.load(second)))
}

/// Reads 8 runs. Each register has two of them, interleaved: the first stage is made as they are read.
#[inline(always)]
fn load<T, D: Register<T>, S: Loads<T, D>>(list: &S, from: [usize; 8]) -> Four<D>
    requires { AreReached 8 from (S.may (S.reach list.now)) }
    ensures { AreLoaded D.SIDE from (S.items list.now) (items_of_four D.items result) }
{
    Four {
        a: load_two(list, from[0], from[4]),
        b: load_two(list, from[1], from[5]),
        c: load_two(list, from[2], from[6]),
        d: load_two(list, from[3], from[7]),
    }
}

/// The places at which the registers of a stage are read, in their order. `places` has the first place of each row of
/// the squares, one square after another.
#[inline(always)]
fn in_order(places: [usize; 8], side: usize) -> [usize; 8]
    requires { IsSide side }
    ensures { (s r : ℕ) → r < side → side * s + r < 8 → slice_index result (8 / side * r + s) ≡ slice_index places (side * s + r) }
{
    if side == 2 {
        return [
            places[0], places[2], places[4], places[6], places[1], places[3], places[5], places[7],
        ];
    }
    if side == 4 {
        return [
            places[0], places[4], places[1], places[5], places[2], places[6], places[3], places[7],
        ];
    }
    places
}

/// Reads squares, which are 8 rows together, and transposes them. `places` has the first place of each row, one square
/// after another.
#[inline(always)]
fn load_columns<T, D: Register<T>, S: Loads<T, D>>(list: &S, places: [usize; 8]) -> Four<D>
    requires some_side { IsSide D.SIDE }
    requires reached { AreReached 8 places (S.may (S.reach list.now)) }
    ensures { AreColumns D.SIDE places (S.items list.now) (items_of_four D.items result) }
{
    let side = D::SIDE;
    let one = load(list, in_order(places, side));
    if side == 2 {
        return one;
    }
    let two = next_stage(one);
    if side == 4 {
        return two;
    }
    next_stage(two)
}

/// Writes the first half of a register from place `first` on, and the second half from place `second` on.
#[inline(always)]
fn store_two<T, D: Register<T>, M: Runs<T, D>>(list: &mut M, first: usize, second: usize, rows: D)
    requires apart { (first + D.SIDE ≤ second) ⊎ (second + D.SIDE ≤ first) }
    requires first { M.may (M.reach list.old) first }
    requires second { M.may (M.reach list.old) second }
    ensures stored { IsStored D.SIDE first second (D.items rows) (M.items list.old) (M.items list.new) }
    ensures reach { M.reach list.new ≡ M.reach list.old }
    ensures holder { M.same_holder (2 * D.SIDE) list.old list.new }
{
    let (a, b) = rows.halves();
    list.store(first, a);
    list.store(second, b);
}

/// Stores four registers, or the first two of them, by runs of `count` places.
#[inline(always)]
fn store<T, D: Register<T>, M: Runs<T, D>>(
    list: &mut M,
    count: usize,
    to: [usize; 8],
    four: Four<D>,
)
    requires known { (count ≡ 4) ⊎ (count ≡ 8) }
    requires reached { AreReached count to (M.may (M.reach list.old)) }
    requires apart { AreDisjoint count D.SIDE to }
    ensures stored { AreStored count D.SIDE to (items_of_four D.items four) (M.items list.old) (M.items list.new) }
    ensures reach { M.reach list.new ≡ M.reach list.old }
    ensures holder { M.same_holder (count * D.SIDE) list.old list.new }
{
    store_two(list, to[0], to[1], four.a);
    store_two(list, to[2], to[3], four.b);
    if count == 8 {
        store_two(list, to[4], to[5], four.c);
        store_two(list, to[6], to[7], four.d);
    }
}

/// For each row `c` of a tile, the place in column `tops[c]`.
#[inline(always)]
fn in_columns(x: [usize; 8], tops: [usize; 8]) -> [usize; 8]
    requires below { (c : ℕ) → c < 8 → slice_index tops c < 8 }
    requires fit { (j : ℕ) → j < 8 → slice_index x j + 8 < 2 ^ 64 }
    ensures { (c : ℕ) → c < 8 → slice_index result c ≡ slice_index x c + slice_index tops c }
{
    [
        x[0] + tops[0],
        x[1] + tops[1],
        x[2] + tops[2],
        x[3] + tops[3],
        x[4] + tops[4],
        x[5] + tops[5],
        x[6] + tops[6],
        x[7] + tops[7],
    ]
}

/// The first place of row `c` of some squares side by side, if the first row of its square is row `tops[c]` of a tile.
#[inline(always)]
fn row_of_squares(x: [usize; 8], side: usize, tops: [usize; 8], c: usize) -> usize
    requires some_side { IsSide side }
    requires below { (c : ℕ) → c < 8 → slice_index tops c + side ≤ 8 }
    requires in_tile { c < 8 }
    requires fit { (j : ℕ) → j < 8 → slice_index x j + 8 < 2 ^ 64 }
    ensures { result ≡ slice_index x (slice_index tops c + c % side) + (c - c % side) }
{
    x[tops[c] + c % side] + (c - c % side)
}

/// The first place of each row of some squares side by side, if the first row of the square of row `c` is row `tops[c]`
/// of a tile.
#[inline(always)]
fn in_rows(x: [usize; 8], side: usize, tops: [usize; 8]) -> [usize; 8]
    requires some_side { IsSide side }
    requires below { (c : ℕ) → c < 8 → slice_index tops c + side ≤ 8 }
    requires fit { (j : ℕ) → j < 8 → slice_index x j + 8 < 2 ^ 64 }
    ensures { (c : ℕ) → c < 8 → slice_index result c ≡ slice_index x (slice_index tops c + c % side) + (c - c % side) }
{
    eight!(row_of_squares(x, side, tops))
}

/// What holds one item.
pub(crate) trait Single<T>: Copy {
    ghost item: { Self → T };
}

/// Two items, one after the other.
#[derive(Clone, Copy)]
pub(crate) struct Two<H>(H, H);

impl<T, H: Single<T>> Register<T> for Two<H> {
    type Half = H;

    ghost items = { λ two. H.item two.0 ∷ H.item two.1 ∷ [] };

    ghost half_items = { λ h. H.item h ∷ [] };

    const SIDE: usize = 1;

    ghost SIDE = { 1 };

    #[inline(always)]
    fn low(self, other: Self) -> Self {
        Two(self.0, other.0)
    }

    #[inline(always)]
    fn high(self, other: Self) -> Self {
        Two(self.1, other.1)
    }

    #[inline(always)]
    fn from_half(first: H) -> Self {
        Two(first, first)
    }

    #[inline(always)]
    fn halves(self) -> (H, H) {
        (self.0, self.1)
    }

    ghost full = { λ two. refl };
}

/// A register that may be one of a [`Pair`]. It has so few items that the number for the pair does not wrap.
pub(crate) trait Paired<T>: Register<T> {
    ghost few: { Self.SIDE < 2 ^ 63 };
}

/// Two registers, whose items follow each other.
#[derive(Clone, Copy)]
pub(crate) struct Pair<R>(R, R);

impl<T, R: Paired<T>> Register<T> for Pair<R> {
    type Half = R;

    ghost items = { λ pair. R.items pair.0 ++ R.items pair.1 };

    ghost half_items = { λ r. R.items r };

    const SIDE: usize = 2 * R::SIDE;

    ghost SIDE = { 2 * R.SIDE };

    #[inline(always)]
    fn low(self, other: Self) -> Self {
        Pair(self.0.low(other.0), self.0.high(other.0))
    }

    #[inline(always)]
    fn high(self, other: Self) -> Self {
        Pair(self.1.low(other.1), self.1.high(other.1))
    }

    #[inline(always)]
    fn from_half(first: R) -> Self {
        Pair(first, first)
    }

    #[inline(always)]
    fn halves(self) -> (R, R) {
        (self.0, self.1)
    }

    ghost full = { λ pair. omega (arith, length-append (R.items pair.0) (R.items pair.1), R.full pair.0, R.full pair.1) };
}
