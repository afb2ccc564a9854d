// The pass over the parts of a program under given limits: lines, nodes, methods, classes, and where each ends.
#![tactic(auto)]

pub mod classes;
pub mod limits;
pub mod lines;
pub mod nodes;
