// The check after form: headings, then bodies, with tables that are lent, in sizes by the number of rows.
#![tactic(auto)]

ghost use Rattle.std.specs.Prelude.{◌≤◌, replicate};
ghost use Rattle.members.specs.Numbers.{most_methods};
ghost use Rattle.passes.specs.Passes.{Room, Stands, ClassRoom, BodyRoom, Checks, most_slots};

use language::{CLASS_WIDTH, METHOD_WIDTH, MOST_ROWS, Refusal};

// Tables come in three lengths, by the number of rows: for at most 32, for at most 1,024, and for all that there may be.
pub const SHORT_ROWS: usize = 32;

pub const FEW_ROWS: usize = 1024;

pub const ALL_ROWS: usize = MOST_ROWS as usize;

// How many numbers the rows of each size have.
pub const SHORT_NUMBERS: usize = 4 * SHORT_ROWS;

pub const FEW_NUMBERS: usize = 4 * FEW_ROWS;

// How many methods these rows may have, a third as many, and how many numbers their table has.
pub const SHORT_METHODS: usize = 11;

pub const FEW_METHODS: usize = 342;

pub const ALL_METHODS: usize = 20000;

pub const SHORT_METHOD_TABLE: usize = SHORT_METHODS * METHOD_WIDTH;

pub const FEW_METHOD_TABLE: usize = FEW_METHODS * METHOD_WIDTH;

pub const ALL_METHOD_TABLE: usize = ALL_METHODS * METHOD_WIDTH;

// Few classes, and how many entries and how many numbers their tables have, Object's included.
pub const FEW_CLASSES: u32 = 7;

pub const FEW_ENTRIES: usize = FEW_CLASSES as usize + 1;

pub const FEW_TABLE: usize = FEW_ENTRIES * CLASS_WIDTH;

// How many slots may be in scope, and how many slots typing takes: as many for each level of nesting, of which there are at
// most 128, and as many again. Of at most 32 rows no more slots are in scope, and no more nodes nested.
const ALL_WIDTH: usize = 256;

const ALL_SLOTS: usize = ALL_WIDTH * 129;

const SHORT_SLOTS: usize = SHORT_ROWS * 33;

// After form: checks headings, then bodies, with tables and slots that are lent, as many for each level of nesting as
// `width`. Answers how many classes there are.
fn check_with(
    rows: &[u32],
    ends: &[u16],
    tables: &mut [u16],
    above: &mut [u64],
    methods: &mut [u16],
    effects: &mut [u64],
    slots: &mut [u32],
    lookups: &mut [u16],
    classes: u32,
    start: u32,
    width: usize,
) -> Result<u32, Refusal>
    requires stands { Stands rows.now ends.now classes start }
    requires room { Room rows.now ends.now methods.old }
    requires class_room { ClassRoom tables.old above.old classes }
    requires body_room { BodyRoom rows.now effects.old slots.old width }
    ensures { Checks rows.now ends.now tables.new above.new
        methods.new lookups.new result }
{
    let many = headings::check_headings(rows, ends, tables, above, methods, effects)?;
    bodies::check_bodies(
        rows,
        ends,
        tables,
        above,
        methods,
        effects,
        slots,
        lookups,
        classes,
        many as usize,
        start as usize,
        width,
    )?;
    Ok(classes)
}

// The same with effects and slots of its own, as many as rows of a size need.
fn check_sized<const METHODS: usize, const SLOTS: usize>(
    rows: &[u32],
    ends: &[u16],
    tables: &mut [u16],
    above: &mut [u64],
    methods: &mut [u16],
    lookups: &mut [u16],
    classes: u32,
    start: u32,
    width: usize,
) -> Result<u32, Refusal>
    requires stands { Stands rows.now ends.now classes start }
    requires room { Room rows.now ends.now methods.old }
    requires class_room { ClassRoom tables.old above.old classes }
    requires bounded { (METHODS ≤ most_methods) × (SLOTS ≤ most_slots) }
    requires body_room { BodyRoom rows.now (replicate METHODS 0) (replicate SLOTS 0) width }
    ensures { Checks rows.now ends.now tables.new above.new
        methods.new lookups.new result }
{
    let mut effects = [0u64; METHODS];
    let mut slots = [0u32; SLOTS];
    check_with(
        rows,
        ends,
        tables,
        above,
        methods,
        &mut effects,
        &mut slots,
        lookups,
        classes,
        start,
        width,
    )
}

// After form: checks headings, then bodies, with tables that are lent, and answers how many classes there are. Where the
// rows are accepted, the tables hold what translation and evaluation read; that of lookup classes may be empty, and is
// filled as far as it goes. Effects and slots, which the check alone reads, are gone when it ends.
pub fn check_formed(
    rows: &[u32],
    ends: &[u16],
    tables: &mut [u16],
    above: &mut [u64],
    methods: &mut [u16],
    lookups: &mut [u16],
    classes: u32,
    start: u32,
) -> Result<u32, Refusal>
    requires stands { Stands rows.now ends.now classes start }
    requires room { Room rows.now ends.now methods.old }
    requires class_room { ClassRoom tables.old above.old classes }
    ensures { Checks rows.now ends.now tables.new above.new
        methods.new lookups.new result }
{
    if rows.len() <= SHORT_NUMBERS {
        return check_sized::<SHORT_METHODS, SHORT_SLOTS>(
            rows, ends, tables, above, methods, lookups, classes, start, SHORT_ROWS,
        );
    }
    if rows.len() <= FEW_NUMBERS {
        return check_sized::<FEW_METHODS, ALL_SLOTS>(
            rows, ends, tables, above, methods, lookups, classes, start, ALL_WIDTH,
        );
    }
    check_sized::<ALL_METHODS, ALL_SLOTS>(
        rows, ends, tables, above, methods, lookups, classes, start, ALL_WIDTH,
    )
}
