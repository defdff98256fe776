//! What makes it safe to run the parts of a call on several threads.
//!
//! No other code calls the functions of this module, and the package is made without them: each is
//! there for its contract.
//!
//! **The law.** Let each part of a call make its steps alone on the list 0, 1, 2 and so on, whose
//! items all differ. Take any sequence that contains these steps, those of each part in their
//! order. On every list it has the effect of the call, and it is as long as the call. Any order of
//! whole parts is one such sequence, and so is whatever several threads make of the parts, because
//! no two parts have a place in common. [`reversal_in_parts`] and [`transpose_in_parts`] state this.
//! What is left to review is that the steps of a part do not depend on the items of the list, so
//! that a part makes the same steps on every list.
//!
//! [`puts_of_part`] and [`exchanges_of_part`] say that a part makes such steps. So the law holds for
//! the functions that the package calls.
//!
//! **From "n steps exist" to "these steps were made".** `SwapsLead n old new` says that some n swaps
//! lead from `old` to `new`. Why are these the swaps that a part makes, and why are there no others?
//! The contract of a kernel holds for every holder and every `same_holder` that meets the laws of
//! [`Places`]. So it holds for a holder that writes down each swap, for which `same_holder n a b`
//! says that b has n more swaps written down than a, and that these lead from the items of a to
//! those of b. A swap beyond the n swaps of the contract would be written down and counted as well.
//! [`ExchangeSteps`] states what such a holder states, and writes nothing down. The exact number then
//! says where the swaps are: on a list whose items all differ, m swaps that change 2m places are at
//! these places, and none of them is at any other place or twice at one.

ghost use Rattle.std.specs.Prelude.{◌≡◌, ◌≢◌, ℕ, ◌+◌, ◌*◌, ◌^◌, ◌<◌, ◌≤◌, ◌↔◌, List, Some, false, length, slice_get};
ghost use Rattle.p3_util_dispatch.specs.Interleaved.{AreOfParts, IsInterleaved, IsMadeAlone, IsPutAlone, numbers_below, puts_of, region_of};
ghost use Rattle.p3_util_kernels.specs.Least.{AreOnceAmong, PutsLead, SwapsLead, after_puts, after_swaps, places_put, places_swapped};
ghost use Rattle.p3_util_dispatch.specs.PlacesOfParts.{IsPlaceOfPart, IsPlaceOfRegion, NoItemInCommon, NoPlaceInCommon};
ghost use Rattle.p3_util_kernels.proofs.LawsLemmas.Steps.{more_puts, more_swaps, no_puts, no_swaps, one_put, one_swap};
ghost use Rattle.p3_util_dispatch.specs.Parts.{parts_in, start_of};
ghost use Rattle.p3_util_dispatch.specs.Plans.{IsReversalPlan, parts_of, width_of};
ghost use Rattle.p3_util_kernels.specs.Reversal.{IsRowReversal};
ghost use Rattle.p3_util_kernels.specs.SwapCounts.{row_swaps};
ghost use Rattle.p3_util_kernels.specs.Transpose.{IsTranspose};

use crate::calls::Output;
use crate::choice::Limits;
use crate::parts::{Part, ReversalPlan, TransposePlan, reverse_part, transpose_part};
use p3_util_fast::bulk::{Ahead, Blocked, Tiled};
use p3_util_kernels::places::{Cells, Places};

/// A holder whose `same_holder n a b` says that some n puts turn the items of `a` into those of
/// `b`.
#[derive(Drop)]
pub(crate) struct PutSteps<C> {
    pub cells: C,
}

impl<C: Cells> Cells for PutSteps<C> {
    type Item = C::Item;

    ghost items = { λ h. C.items h.cells };

    ghost same_holder = { λ n a b. PutsLead n (C.items a.cells) (C.items b.cells) };

    fn len(&self) -> usize {
        self.cells.len()
    }

    fn put(&mut self, i: usize, v: Self::Item) {
        self.cells.put(i, v);
    }

    ghost same_holder_refl = { λ a. no_puts (C.items a.cells) };

    ghost same_holder_trans = { λ m n all a b c. more_puts m n all (C.items a.cells)
        (C.items b.cells) (C.items c.cells) };
}

impl<C: Cells> Blocked for PutSteps<C> {}

/// With the constants of any other holder. A copy puts the items one by one.
impl<C: Output> Output for PutSteps<C> {
    const SIZE: usize = C::SIZE;

    const IS_INLINED: bool = C::IS_INLINED;

    const TESTS_INDICES: bool = C::TESTS_INDICES;

    const HAS_REGISTERS: bool = C::HAS_REGISTERS;

    const IS_X86_64: bool = C::IS_X86_64;

    fn limits() -> Limits {
        C::limits()
    }

    fn address(&self) -> usize {
        self.cells.address()
    }

    fn copy<R: Ahead<Item = C::Item> + Copy>(self, source: R) -> Self {
        let mut copied = self;
        let len = source.len();
        let mut i = 0;
        while i < len {
            copied.put(i, source.at(i));
            i += 1;
        }
        copied
    }
}

/// A holder whose `same_holder n a b` says that some n exchanges turn the items of `a` into those
/// of `b`.
#[derive(Drop)]
pub(crate) struct ExchangeSteps<S> {
    pub places: S,
}

impl<S: Places> Places for ExchangeSteps<S> {
    type Item = S::Item;

    ghost items = { λ h. S.items h.places };

    ghost same_holder = { λ n a b. SwapsLead n (S.items a.places) (S.items b.places) };

    fn len(&self) -> usize {
        self.places.len()
    }

    fn exchange(&mut self, i: usize, j: usize) {
        self.places.exchange(i, j);
    }

    ghost same_holder_refl = { λ a. no_swaps (S.items a.places) };

    ghost same_holder_trans = { λ m n all a b c. more_swaps m n all (S.items a.places)
        (S.items b.places) (S.items c.places) };
}

impl<S: Places> Tiled for ExchangeSteps<S> {}

/// The law for a transpose. Each part puts numbers from the list 0, 1, 2 and so on into a list that
/// has none of these numbers. Its puts are then at the places of its region, one at each, and two
/// parts have no place in common. Take any interleaving of the puts of all parts, and let each put
/// write the item that the input has at the number. On every output this puts the transpose of
/// every input, by as many puts as there are items.
pub(crate) fn transpose_in_parts<T>(plan: TransposePlan)
    ensures stay { (number : ℕ) (blank : List ℕ) (steps : List (ℕ × ℕ))
        → number < parts_in plan.cut.len plan.cut.part_len → length blank ≡ plan.width * plan.height
        → NoItemInCommon (numbers_below (plan.width * plan.height)) blank
        → IsPutAlone plan number (numbers_below (plan.width * plan.height)) blank steps
        → AreOnceAmong (IsPlaceOfRegion (region_of plan number) plan.height) (places_put steps) }
    ensures apart { (i j : ℕ) → i ≢ j → i < parts_in plan.cut.len plan.cut.part_len
        → NoPlaceInCommon (IsPlaceOfRegion (region_of plan i) plan.height)
        (IsPlaceOfRegion (region_of plan j) plan.height) }
    ensures whole { (input old : List T) (item : ℕ → T) (blank : List ℕ)
        (lists : List (List (ℕ × ℕ))) (all : List (ℕ × ℕ))
        → length input ≡ plan.width * plan.height → length old ≡ plan.width * plan.height
        → ((i : ℕ) → i < length input → slice_get input i ≡ Some (item i))
        → length blank ≡ plan.width * plan.height
        → NoItemInCommon (numbers_below (plan.width * plan.height)) blank
        → AreOfParts (parts_in plan.cut.len plan.cut.part_len)
        (λ k. IsPutAlone plan k (numbers_below (plan.width * plan.height)) blank) lists
        → IsInterleaved lists all
        → IsTranspose plan.width plan.height input (after_puts old (puts_of item all))
        × (length all ≡ plan.width * plan.height) }
{}

/// The law for a reversal. Each part makes exchanges on the list 0, 1, 2 and so on. They are at
/// places of the part, no two of these places are the same, and two parts have no place in common.
/// Any interleaving of the exchanges of all parts reverses every list, by as many exchanges as the
/// reversal that is not cut.
pub(crate) fn reversal_in_parts<T>(plan: ReversalPlan)
    ensures stay { (len number : ℕ) (steps : List (ℕ × ℕ)) → number < parts_of plan
        → IsReversalPlan len plan → IsMadeAlone plan number (numbers_below len) steps
        → AreOnceAmong (IsPlaceOfPart plan number) (places_swapped steps) }
    ensures apart { (i j : ℕ) → i ≢ j
        → NoPlaceInCommon (IsPlaceOfPart plan i) (IsPlaceOfPart plan j) }
    ensures whole { (old : List T) (lists : List (List (ℕ × ℕ))) (all : List (ℕ × ℕ))
        → IsReversalPlan (length old) plan
        → AreOfParts (parts_of plan) (λ k. IsMadeAlone plan k (numbers_below (length old))) lists
        → IsInterleaved lists all
        → IsRowReversal (width_of plan) old (after_swaps old all)
        × (length all ≡ row_swaps (length old) (width_of plan)) }
{}

/// If the columns are cut, the cells of a region are consecutive, and those of the next region come
/// right after them.
pub(crate) fn cells_follow(plan: TransposePlan, number: usize)
    requires columns { plan.by_rows ≡ false }
    requires below { number < parts_in plan.cut.len plan.cut.part_len }
    ensures { (p : ℕ) → IsPlaceOfRegion (region_of plan number) plan.height p
        ↔ ((start_of plan.cut.len plan.cut.part_len number * plan.height ≤ p)
        × (p < start_of plan.cut.len plan.cut.part_len (number + 1) * plan.height)) }
{}

/// Each part of a transpose has steps, in any order: some puts that put its region, one for each item of the region.
pub(crate) fn puts_of_part<C: Output, R: Ahead<Item = C::Item> + Copy>(
    cells: C,
    source: R,
    part: Part<TransposePlan>,
) -> C
    requires input_fits { length (R.items source) ≡ part.plan.width * part.plan.height }
    requires output_fits { length (C.items cells) ≡ part.plan.width * part.plan.height }
    ensures { (steps : List (ℕ × C.Item)) × (C.items result ≡ after_puts (C.items cells) steps)
        × IsPutAlone part.plan part.number (R.items source) (C.items cells) steps }
{
    transpose_part(PutSteps { cells }, source, part).cells
}

/// Each part of a reversal has steps: some exchanges that have the effect of the part, as many as the part takes.
pub(crate) fn exchanges_of_part<M: Places>(items: M, part: Part<ReversalPlan>) -> M
    requires plan { IsReversalPlan (length (M.items items)) part.plan }
    requires len_fits { length (M.items items) < 2 ^ 64 }
    ensures { (steps : List (ℕ × ℕ)) × (M.items result ≡ after_swaps (M.items items) steps)
        × IsMadeAlone part.plan part.number (M.items items) steps }
{
    reverse_part(ExchangeSteps { places: items }, part).places
}
