// The members of a class in the pass over headings (document 01, "Headings"): its fields and its methods, checked and entered in the
// tables.
#![tactic(auto)]

pub mod fields;
pub mod methods;

// The numbers of the kinds of classes, as C lines and the table of classes have them; Object has a plain class's.
// Kept: a kind stays a number, since the table of classes is lent as numbers, and a C line may have one of no kind.
pub const PLAIN_KIND: u32 = 0;

pub const ROOT_KIND: u32 = 1;

pub const STATE_KIND: u32 = 2;
