//! Callers of `p3_util`, proved from public contracts alone: a holder of two slices, calls on a map, a transform of the
//! columns of a matrix, short uses, and a caller for each lemma.
#![tactic(auto)]

pub mod joined;
pub mod lemmas;
pub mod linear_map;
pub mod transform;
pub mod uses;
