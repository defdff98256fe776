//! Statements about the definitions that contracts use. Each statement is the contract of a function that does nothing.

ghost use Rattle.std.specs.Prelude.{ℕ};
ghost use Rattle.p3_util_kernels.specs.Least.{LeastPuts, LeastReversal, LeastSquare, Palindromes, PutsChange, ReversalDiffers, SquareDiffers, SwapsChange};

/// The statements of [`least_runs_of`] for lists of numbers.
pub fn least_runs()
    ensures swaps_change { SwapsChange ℕ }
    ensures puts_change { PutsChange ℕ }
    ensures palindromes { Palindromes }
    ensures reversal { LeastReversal ℕ }
    ensures square { LeastSquare ℕ }
    ensures puts { LeastPuts ℕ }
    ensures reversal_differs { ReversalDiffers ℕ }
    ensures square_differs { SquareDiffers ℕ }
{
    least_runs_of::<usize>();
}

/// The least number of steps in which a list whose items all differ can be rearranged.
///
/// A step is one exchange of the items at any two places, or one put at any place. Steps are made one after the other.
///
/// - m exchanges change at most 2m places, and m puts change at most m places.
/// - Of the numbers of k bits, 2^ceil(k/2) are their own reverse.
/// - So 2^k items and their reversal by index bits differ at exactly `2 * short_swaps k` places. A
///   square of `side` rows and its transpose differ at exactly `side * (side - 1)` places.
/// - So any list of exchanges that reverses 2^k items has at least `short_swaps k` exchanges, and
///   any list of exchanges that transposes a square has at least `side * (side - 1) / 2`. Any list
///   of puts that changes n places has at least n puts. The short path of a reversal, the transpose
///   in place of a list that is one square, and the transpose of a matrix take exactly these
///   numbers of steps.
pub fn least_runs_of<T>()
    ensures swaps_change { SwapsChange T }
    ensures puts_change { PutsChange T }
    ensures palindromes { Palindromes }
    ensures reversal { LeastReversal T }
    ensures square { LeastSquare T }
    ensures puts { LeastPuts T }
    ensures reversal_differs { ReversalDiffers T }
    ensures square_differs { SquareDiffers T }
{}
