//! The transpose of a block of 4 by 4 items in two stages. Each stage exchanges one bit of the row number with the same
//! bit of the column number. Each tile of a transpose is put in such blocks.

ghost use Rattle.std.specs.Prelude.{[], ◌∷◌, ℕ, ◌≡◌, ◌+◌, ◌*◌, ◌<◌};
ghost use Rattle.p3_util_kernels.specs.Stages.{IsBlockTransposed, IsStageOne, IsStageTwo, item_at};

/// The transpose of a block: the item in row r and column c of the result comes from row c and column r.
pub fn butterfly_4x4<T: Copy>(block: [[T; 4]; 4]) -> [[T; 4]; 4]
    ensures { IsBlockTransposed block result }
{
    butterfly_stage2(butterfly_stage1(block))
}

/// Exchanges the lowest bit of the row number with the lowest bit of the column number. This transposes each of the
/// four squares of 2 by 2 items.
pub fn butterfly_stage1<T: Copy>(block: [[T; 4]; 4]) -> [[T; 4]; 4]
    ensures { IsStageOne block result }
{
    let [a, b, c, d] = block;
    let [w, x] = stage1_of_rows(a, b);
    let [y, z] = stage1_of_rows(c, d);
    [w, x, y, z]
}

/// Exchanges the higher bit of the row number with the higher bit of the column number.
///
/// This exchanges the upper right square of 2 by 2 items with the lower left one.
pub fn butterfly_stage2<T: Copy>(block: [[T; 4]; 4]) -> [[T; 4]; 4]
    ensures { IsStageTwo block result }
{
    let [a, b, c, d] = block;
    let [w, y] = stage2_of_rows(a, c);
    let [x, z] = stage2_of_rows(b, d);
    [w, x, y, z]
}

/// Exchanges the items in the odd columns of row `a` with those in the even columns of row `b`.
fn stage1_of_rows<T: Copy>(a: [T; 4], b: [T; 4]) -> [[T; 4]; 2]
    ensures { (p Q q : ℕ) → p < 2 → Q < 2 → q < 2
        → item_at result p (2 * Q + q) ≡ item_at (a ∷ b ∷ []) q (2 * Q + p) }
{
    [[a[0], b[0], a[2], b[2]], [a[1], b[1], a[3], b[3]]]
}

/// Exchanges the second half of row `a` with the first half of row `b`.
fn stage2_of_rows<T: Copy>(a: [T; 4], b: [T; 4]) -> [[T; 4]; 2]
    ensures { (P Q q : ℕ) → P < 2 → Q < 2 → q < 2
        → item_at result P (2 * Q + q) ≡ item_at (a ∷ b ∷ []) Q (2 * P + q) }
{
    [[a[0], a[1], b[0], b[1]], [a[2], a[3], b[2], b[3]]]
}
