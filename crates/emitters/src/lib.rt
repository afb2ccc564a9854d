// The plain lines for which no child is translated: what is written for a type, a field, a slot, W and R.
// What has no room is counted and not written.
#![tactic(auto)]

pub mod changes;
pub mod rows;
pub mod slots;
