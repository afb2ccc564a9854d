// The services under their C names, a module for each group. Slices pass as a pointer and a length; an answer is a number,
// in some with numbers stored beside it (crates/packing/specs: Packed, and Unpacked, which says what they mean).
#![tactic(auto)]

pub mod fleets;
pub mod price_terms;
pub mod programs;
pub mod runs;
