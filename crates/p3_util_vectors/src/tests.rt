//! Worked examples, orders of steps, and the original's answers, each compared with values from
//! elsewhere. A test is here if it is small and shows what a call means. Properties that no clause
//! states are tested without a proof: by the package, and in `tests/unproved`.

mod array_serialization;
mod bits;
mod calls;
mod checks;
mod chunks;
mod items;
mod linear_map;
mod oracle;
mod orders;
mod reversals;
mod reverse;
mod shapes;
mod transpose;
mod views;
mod zip_eq;
