//! Logarithms, powers, reversed digits and short names, worked out by hand and from the original
//! crate.

/// Numbers, each with the least exponent of a power of two that is at least the number, and the
/// greatest exponent of one that is at most the number.
pub const LOGARITHMS: [(usize, usize, usize); 11] = [
    (0, 0, 0),
    (1, 0, 0),
    (2, 1, 1),
    (3, 2, 1),
    (1 << 18, 18, 18),
    (0x14fe_901b, 29, 28),
    (1 << 31, 31, 31),
    (1 << 63, 63, 63),
    ((1 << 63) + 1, 64, 63),
    (usize::MAX - 1, 64, 63),
    (usize::MAX, 64, 63),
];

/// Exponents, with the power of two if it fits in a `usize`.
pub const POWERS: [(usize, Option<usize>); 9] = [
    (0, Some(1)),
    (1, Some(2)),
    (5, Some(32)),
    (10, Some(1024)),
    (20, Some(1_048_576)),
    (63, Some(1 << 63)),
    (64, None),
    (65, None),
    (usize::MAX, None),
];

/// Two exponents, with their sum and its power of two if that fits in a `usize`.
pub const SUMS: [(usize, usize, Option<(usize, usize)>); 12] = [
    (0, 0, Some((0, 1))),
    (5, 0, Some((5, 32))),
    (0, 10, Some((10, 1024))),
    (10, 2, Some((12, 4096))),
    (2, 10, Some((12, 4096))),
    (20, 3, Some((23, 8_388_608))),
    (62, 1, Some((63, 1 << 63))),
    (32, 31, Some((63, 1 << 63))),
    (63, 1, None),
    (32, 32, None),
    (usize::MAX, 1, None),
    (usize::MAX, usize::MAX, None),
];

/// Numbers, how many low digits are reversed, and the result. If that number is 0, all 64 digits
/// are reversed.
pub const REVERSED_DIGITS: [(usize, usize, usize); 13] = [
    (0b0_1011, 5, 0b1_1010),
    (0b1_0101, 3, 0b101),
    (1, 0, 1 << 63),
    (0, 0, 0),
    (1, 64, 1 << 63),
    (1 << 63, 64, 1),
    (0, 10, 0),
    (1, 10, 512),
    (512, 10, 1),
    (0, 5, 0),
    (11, 5, 26),
    (10_855_552_171_358_111_503, 47, 132_428_080_446_058),
    (14_534_494_822_908_718_657, 60, 587_550_199_770_411_737),
];

/// Names of types as the compiler writes them, with their short names. The last five rows are
/// worked out by hand.
pub const NAMES: [(&str, &str); 21] = [
    ("u32", "u32"),
    ("()", "()"),
    ("&str", "&str"),
    ("&[u8]", "&[u8]"),
    ("[alloc::string::String; 3]", "String; 3]"),
    ("(alloc::string::String, u8)", "String, u8)"),
    ("alloc::vec::Vec<alloc::string::String>", "Vec<String>"),
    (
        "core::option::Option<alloc::vec::Vec<u8>>",
        "Option<Vec<u8>>",
    ),
    (
        "std::collections::hash::map::HashMap<alloc::string::String, alloc::vec::Vec<core::option::Option<u64>>>",
        "HashMap<String,Vec<Option<u64>>>",
    ),
    ("alloc::boxed::Box<dyn core::fmt::Debug>", "Box<Debug>"),
    (
        "fn(alloc::string::String) -> alloc::vec::Vec<u8>",
        "String) ->Vec<u8>",
    ),
    (
        "core::result::Result<(), core::fmt::Error>",
        "Result<(),Error>",
    ),
    ("&core::fmt::Error", "Error"),
    (
        "&mut alloc::vec::Vec<&mut alloc::string::String>",
        "Vec<String>",
    ),
    (
        "(alloc::vec::Vec<u8>, (core::option::Option<alloc::string::String>, [u8; 2]))",
        "Vec<u8>,Option<String>, [u8; 2]))",
    ),
    (
        "alloc::rc::Rc<core::cell::RefCell<alloc::vec::Vec<u8>>>",
        "Rc<RefCell<Vec<u8>>>",
    ),
    (
        "alloc::vec::Vec<core::option::Option<u32>>",
        "Vec<Option<u32>>",
    ),
    ("a:::b", ":b"),
    ("a::", ""),
    ("x<y::z>", "x<z>"),
    ("", ""),
];
