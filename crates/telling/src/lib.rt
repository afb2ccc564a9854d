// Answers as the numbers that cross to C (crates/packing/specs/Packed.antt): the one returned, and those stored where the
// caller says. The services under their C names call these; a module for each group of services.
#![tactic(auto)]

pub mod fleets;
pub mod price_terms;
pub mod runs;
pub mod words;
