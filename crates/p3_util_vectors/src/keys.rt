//! Keys that are equal even if they are spelled with different letters.

ghost use Rattle.std.specs.Prelude.{◌==◌};
ghost use Rattle.std.proofs.Common.{rules};
ghost use Rattle.std.specs.Cmp.Rules.{comparing};
ghost use Rattle.std.specs.Ordering.{on};
ghost use Rattle.std.specs.Str.{bytes_eq, str_to_ascii_lowercase};

/// A key that is equal to any other spelling of itself in capital and small letters.
#[derive(Drop)]
pub struct Spelling(pub &'static str);

impl PartialEq for Spelling {
    ghost eq = { on (λ w. str_to_ascii_lowercase w.0.now) bytes_eq };

    ghost laws = { Prim.search (comparing, rules) };

    fn eq(&self, other: &Spelling) -> bool {
        self.0.eq_ignore_ascii_case(other.0)
    }
}

impl Eq for Spelling {
    ghost laws = { Prim.search (comparing, rules) };
}
