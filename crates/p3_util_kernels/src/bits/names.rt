//! The short names of types.

ghost use Rattle.std.specs.Prelude.{◌≡◌, ◌+◌, ◌^◌, ◌<◌, IfSome, IfOk, OnErr, length, position, string_bytes};
ghost use Rattle.p3_util_kernels.specs.Names.{is_mark, last_part, short_name};

use std::alloc::{AllocError, Global};

/// The short name of a type: `alloc::vec::Vec<core::option::Option<u32>>` becomes `Vec<Option<u32>>`.
///
/// The name is cut after each `<`, `>` and `,`. Of each piece, only what follows its last `::` is kept. So a bracket or
/// a `&` in front of a path is lost with the path. Each `::` is looked for from left to right, so `a:::b` becomes `:b`.
///
/// # Errors
///
/// `AllocError` if there is no memory for as many bytes as `name` has. The call requests no more than that. With an
/// empty name it never fails.
pub fn pretty_name(alloc: Global, name: &str) -> Result<String, AllocError>
    ensures short { IfOk result (λ s. string_bytes s ≡ short_name name.now) }
    ensures refused { OnErr result (0 < length name.now) }
{
    let mut short = String::with_capacity(alloc, name.len())?;
    let mut rest = name;
    while let Some(end) = first_mark(rest) {
        let (piece, after) = rest.split_at(end + 1);
        short.push_str(last_part(piece))?;
        rest = after;
    }
    short.push_str(last_part(rest))?;
    Ok(short)
}

/// The index of the first `<`, `>` or `,`.
fn first_mark(name: &str) -> Option<usize>
    ensures place { result ≡ position is_mark name.now }
    ensures fits { IfSome result (λ i. i + 1 < 2 ^ 64) }
{
    name.bytes()
        .position(|b| b == b'<' || b == b'>' || b == b',')
}

/// The part after the last `::`, or the whole text if there is none.
fn last_part(text: &str) -> &str
    ensures { result.now ≡ last_part text.now }
{
    let mut part = text;
    while let Some((_, after)) = part.split_once("::") {
        part = after;
    }
    part
}
