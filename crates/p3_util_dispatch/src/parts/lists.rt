//! The parts of a call, each of which is handed out once, with its share of the list.

ghost use Rattle.std.specs.Prelude.{◌≡◌, ℕ, ◌+◌, ◌*◌, ◌/◌, ◌^◌, ◌<◌, ◌≤◌, IfNone, IfSome, length};
ghost use Rattle.p3_util_dispatch.specs.Parts.{parts_in};
ghost use Rattle.p3_util_dispatch.specs.Plans.{IsReversalPlan};

use crate::parts::{ReversalPlan, TransposePlan};

/// How a call is cut into parts. They have the numbers below [`count`](Plan::count).
pub(crate) trait Plan: Copy {
    ghost parts: { Self → ℕ };

    /// The number of parts.
    fn count(self) -> usize
        ensures { result ≡ parts self };
}

/// A part of a call. Only [`PartsToRun::hand_out`] makes one, there is no copy of it, and it does not show its plan. So no
/// caller can hand out the parts of its plan again.
#[derive(Drop)]
pub(crate) struct Part<P: Plan> {
    pub(super) plan: P,
    pub(super) number: usize,
    pub ghost below: { number < P.parts plan },
}

/// A list that the parts of a call share. A place has the same index in a share as in the list.
pub(crate) trait Shared {
    /// The number of items.
    ghost len: { Self → ℕ };

    /// The number of bytes of all items.
    ghost bytes: { Self → ℕ };

    /// A share of the list for the next part.
    fn share(&mut self) -> Self
    where
        Self: Sized,
        ensures len { len result ≡ len self.old }
        ensures bytes { bytes result ≡ bytes self.old }
        ensures len_left { len self.new ≡ len self.old }
        ensures bytes_left { bytes self.new ≡ bytes self.old };
}

/// What each part of a call is given besides its share of the list.
pub(crate) trait Given<P: Plan>: Copy {
    /// The plan and this are for a list with these numbers of items and of bytes.
    ghost is_for: { P → Self → (len bytes : ℕ) → Type 0 };
}

/// The input of a transpose has as many items as the output. A plan without parts may be for any list.
impl<T> Given<TransposePlan> for &[T] {
    ghost is_for = { λ plan input len bytes. 0 < parts_in plan.cut.len plan.cut.part_len
        → (length input.now ≡ plan.width * plan.height) × (len ≡ plan.width * plan.height) };
}

/// The number of bytes of each place of a reversal, of which the list is a whole number.
impl Given<ReversalPlan> for usize {
    ghost is_for = { λ plan place len bytes. (0 < place) × (bytes / place * place ≡ bytes)
        × IsReversalPlan (bytes / place) plan };
}

/// The list of a call and the parts that are left of it: those with the numbers from `next` on. It keeps the list, and there is
/// no copy of it. So each part is handed out once, and gets a share of the list that the plan is for.
#[derive(Drop)]
pub(crate) struct PartsToRun<L: Shared, P: Plan, I: Given<P>> {
    list: L,
    plan: P,
    next: usize,
    end: usize,
    given: I,
    pub ghost in_order: { next ≤ end },
    pub ghost inside: { end ≤ P.parts plan },
    pub ghost fits: { ∥ I.is_for plan given (L.len list) (L.bytes list) ∥₁ },
}

/// A part of a call, and its share of the list that the plan is for.
#[derive(Drop)]
pub(crate) struct PartToRun<L: Shared, P: Plan, I: Given<P>> {
    share: L,
    part: Part<P>,
    given: I,
    pub ghost fits: { ∥ I.is_for part.plan given (L.len share) (L.bytes share) ∥₁ },
}

impl<L: Shared, P: Plan, I: Given<P>> PartsToRun<L, P, I> {
    /// All parts of a call on this list.
    pub(crate) fn of(list: L, plan: P, given: I) -> Self
        requires { I.is_for plan given (L.len list) (L.bytes list) }
        ensures list { result.list ≡ list }
        ensures plan { result.plan ≡ plan }
        ensures first { result.next ≡ 0 }
        ensures last { result.end ≡ P.parts plan }
        ensures given { result.given ≡ given }
    {
        PartsToRun {
            list,
            plan,
            next: 0,
            end: plan.count(),
            given,
        }
    }

    /// The number of parts that are left.
    pub(crate) fn count(&self) -> usize
        ensures { self.now.next + result ≡ self.now.end }
    {
        self.end - self.next
    }

    /// Hands out the next part. Each call that returns a part returns the one with the next number.
    pub(crate) fn hand_out(&mut self) -> Option<PartToRun<L, P, I>>
        ensures plan { self.new.plan ≡ self.old.plan }
        ensures last { self.new.end ≡ self.old.end }
        ensures given { self.new.given ≡ self.old.given }
        ensures len { L.len self.new.list ≡ L.len self.old.list }
        ensures bytes { L.bytes self.new.list ≡ L.bytes self.old.list }
        ensures share { IfSome result (λ next. (L.len next.share ≡ L.len self.old.list)
            × (L.bytes next.share ≡ L.bytes self.old.list)) }
        ensures some { IfSome result (λ next. (next.part.plan ≡ self.old.plan)
            × (next.part.number ≡ self.old.next) × (next.given ≡ self.old.given)
            × (self.new.next ≡ self.old.next + 1)) }
        ensures none { IfNone result ((self.old.next ≡ self.old.end) × (self.new.next ≡ self.old.next)) }
    {
        if self.next == self.end {
            return None;
        }
        let number = self.next;
        self.next += 1;
        Some(PartToRun {
            share: self.list.share(),
            part: Part {
                plan: self.plan,
                number,
            },
            given: self.given,
        })
    }
}

impl<L: Shared, P: Plan, I: Given<P>> PartToRun<L, P, I> {
    /// The number of the part.
    pub(crate) fn number(&self) -> usize
        ensures number { result ≡ self.now.part.number }
        ensures below { result < P.parts self.now.part.plan }
    {
        self.part.number
    }

    /// The share of the list, what the part is given, and the part itself.
    pub(crate) fn taken(self) -> (L, I, Part<P>)
        ensures fits { ∥ I.is_for result.2.plan result.1 (L.len result.0) (L.bytes result.0) ∥₁ }
        ensures share { result.0 ≡ self.share }
        ensures given { result.1 ≡ self.given }
        ensures part { result.2 ≡ self.part }
    {
        (self.share, self.given, self.part)
    }
}
