// The plain slots of a scope.
ghost use Rattle.std.specs.Prelude.{◌≡◌, ◌+◌, ◌≤◌, length, replicate};
ghost use Rattle.emitters.specs.Lines.{most_numbers};
ghost use Rattle.emitters.specs.Writing.{Extended};
ghost use Rattle.language.specs.Limits.{of_translator};

// How many slots of the source a scope may have.
pub const MOST_SLOTS: usize = 32;

// The scope in which a node is translated: the plain slots of the source's slots, how many of these it has, `this` among
// them, and the first slot of the plain program that is free.
#[derive(Clone, Copy)]
pub struct Scope<'a> {
    pub slots: &'a [u32; MOST_SLOTS],
    pub variables: usize,
    pub free: u32,
}

// The plain slots of the source's slots where a block adds `count` locals: the free slots of its scope.
pub fn with_locals(scope: Scope<'_>, count: usize) -> [u32; MOST_SLOTS]
    requires { (scope.variables + count ≤ of_translator.slots) × (scope.free ≤ most_numbers) ×
        (length scope.slots.now ≡ of_translator.slots) }
    ensures { Extended scope.entry.slots.now result scope.entry.variables scope.entry.free count }
{
    let mut slots = *scope.slots;
    for i in 0..count {
        slots[scope.variables + i] = scope.free + i as u32;
    }
    slots
}

// The slots of a body: `this`, then its parameters.
pub fn first_slots(count: usize) -> [u32; MOST_SLOTS]
    requires { 1 + count ≤ of_translator.slots }
    ensures { Extended (replicate of_translator.slots 0) result 1 1 count }
{
    let this = Scope {
        slots: &[0; MOST_SLOTS],
        variables: 1,
        free: 1,
    };
    with_locals(this, count)
}
