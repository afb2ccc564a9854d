// The nodes that seek a member, once their children are typed: G and U a field, Q a method.
#![tactic(auto)]

pub mod fields;
pub mod methods;
