// What each node of a body does with the types of its children, but those that seek a member.
#![tactic(auto)]

pub mod nodes;
