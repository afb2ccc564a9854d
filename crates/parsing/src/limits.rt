// The limits that a pass is given.
ghost use Rattle.std.specs.Prelude.{◌+◌, ◌≤◌};
ghost use Rattle.language.specs.Limits.{of_check};

// What there may be at most: the numbers in which the columns of the table of limits differ (document 01, "Lines and rows").
// `fields` is there for the contracts: how many fields a class has is no matter of this pass.
// The end of each row is a number of the table of ends, and a method has a slot for `this` and for each of its parameters.
#[derive(Clone, Copy)]
pub struct Limits {
    pub rows: usize,
    pub classes: u32,
    pub fields: u32,
    pub slots: u32,
    pub nesting: u32,
    pub ghost rows_fit: { rows ≤ of_check.rows },
    pub ghost parameters_fit: { of_check.parameters + 1 ≤ slots },
}
