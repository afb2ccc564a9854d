// What counting and ranking work on and what they answer (document 02, §1). The definitions are in specs/.
#![tactic(auto)]

ghost use Rattle.std.specs.Prelude.{◌≡◌, ◌+◌, ◌*◌, ◌<◌, length};
ghost use Rattle.fleet.specs.Entries.{entry};

// How many numbers a counted line has in a table: model, printed, spoiled, cents.
pub const LINE_SIZE: usize = 4;

// A model with labels printed, those of them that were spoiled, and cents: of one run, of one counted line, or of all so far.
#[derive(Clone, Copy, Debug, PartialEq, Eq)]
pub struct Counted {
    pub model: u32,
    pub printed: u32,
    pub spoiled: u32,
    pub cents: u32,
}

impl Counted {
    // The line at a place of a table, from 0.
    #[tactic(auto, unfolding(crate::specs::Entries::entry))]
    pub fn at(table: &[u32], place: usize) -> Counted
        requires { place * 4 + 3 < length table.now }
        ensures { result ≡ entry table.now place }
    {
        Counted {
            model: table[place * LINE_SIZE],
            printed: table[place * LINE_SIZE + 1],
            spoiled: table[place * LINE_SIZE + 2],
            cents: table[place * LINE_SIZE + 3],
        }
    }
}

// The labels of a run that were printed, and those of them that were spoiled.
#[derive(Clone, Copy, Debug, PartialEq, Eq)]
pub struct Labels {
    pub printed: u32,
    pub spoiled: u32,
}

// A refusal of a report: its number, and the place of the run or of the counted line that it stands on, 0 for none of them.
#[derive(Clone, Copy, Debug, PartialEq, Eq)]
pub struct Fault {
    pub number: u32,
    pub place: usize,
}
