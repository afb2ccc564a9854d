// What the calendar and the services on price terms return (document 02, §11). The definitions are in specs/.
#![tactic(auto)]

// A day's date.
#[derive(Clone, Copy, Debug, PartialEq, Eq)]
pub struct Date {
    pub year: u32,
    pub month: u32,
    pub day: u32,
}

// The five numbers of a term's line, and where the line ends.
#[derive(Clone, Copy)]
pub struct TermLine {
    pub model: u32,
    pub first: u32,
    pub last: u32,
    pub cents: u32,
    pub signing: u32,
    pub end: usize,
}

// A price in cents, and the line of its term.
#[derive(Clone, Copy, Debug, PartialEq, Eq)]
pub struct Price {
    pub cents: u32,
    pub line: u32,
}
