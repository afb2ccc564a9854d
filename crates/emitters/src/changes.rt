// W and R: a new object with its Identity, and one that takes the place of another behind its Identity.
ghost use Rattle.std.specs.Prelude.{◌+◌, ◌*◌, ◌≤◌, ◌<◌};
ghost use Rattle.emitters.specs.Lines.{most_numbers, new_lines, change_head, head_length};
ghost use Rattle.emitters.specs.Writing.{Written, SomeFields, SomeCopies, CopiesWritten, RenewWritten};
ghost use Rattle.emitters.specs.Writing.{SomeChange, ChangeWritten};

use super::rows::{field_name, put};
use language::{
    ASSIGN, BLOCK, CAST, CHOOSE, CLASS_WIDTH, COUNT_PLACE, GET, ID, IDENTITY, IMP, IS_NULL, LOCAL,
    NEW, NULL, ROOT_PLACE, ROWS_PLACE, SET, SLOT, class_entry,
};

// Fields, whose rows the table has from `from` on, each copied from the object in the slot after `slot` to the one in `slot`.
pub fn put_copies(
    rows: &[u32],
    tables: &[u16],
    out: &mut [u32],
    place: usize,
    from: usize,
    count: usize,
    slot: u32,
) -> usize
    requires some_fields { SomeFields rows.now tables.now from count }
    requires count_bound { (place + 16 * count ≤ most_numbers) × (slot < most_numbers) }
    ensures { CopiesWritten rows.now tables.now from count slot
        out.old out.new place result }
{
    let mut end = place;
    for entry in from..from + count {
        let name = field_name(rows, usize::from(tables[entry]));
        let lines = [
            [SET, name, 0, 0],
            [SLOT, slot, 0, 0],
            [GET, name, 0, 0],
            [SLOT, slot + 1, 0, 0],
        ];
        end = put(out, end, &lines);
    }
    end
}

// W: an Identity and a new object that know each other.
pub fn put_new(out: &mut [u32], place: usize, next: u32, class: u32) -> usize
    requires { (place + 56 ≤ most_numbers) × (next ≤ most_numbers) × (class < 65536) }
    ensures { Written (new_lines next class) out.old out.new place result }
{
    let i = next;
    let o = next + 1;
    let lines = [
        [BLOCK, 2, 5, 0],
        [LOCAL, IDENTITY, 0, 0],
        [LOCAL, class + 2, 0, 0],
        [ASSIGN, i, 0, 0],
        [NEW, IDENTITY, 0, 0],
        [ASSIGN, o, 0, 0],
        [NEW, class + 2, 0, 0],
        [SET, ID, 0, 0],
        [SLOT, o, 0, 0],
        [SLOT, i, 0, 0],
        [SET, IMP, 0, 0],
        [SLOT, i, 0, 0],
        [SLOT, o, 0, 0],
        [SLOT, i, 0, 0],
    ];
    put(out, place, &lines)
}

// R's inner block: a new object of the target, its Identity moved to it, the root's fields copied.
pub fn put_renew(
    rows: &[u32],
    tables: &[u16],
    out: &mut [u32],
    place: usize,
    next: u32,
    target: u32,
    root: u32,
) -> usize
    requires some_copies { SomeCopies rows.now tables.now (place + 56) root }
    requires next_bound { (next + 2 < most_numbers) × (target < 65536) × (root < 65536) }
    ensures { RenewWritten rows.now tables.now next target root
        out.old out.new place result }
{
    let i = next;
    let o = next + 1;
    let count = class_entry(tables, root, COUNT_PLACE);
    let head = [
        [BLOCK, 0, count + 5, 0],
        [ASSIGN, o, 0, 0],
        [NEW, target + 2, 0, 0],
        [ASSIGN, next + 2, 0, 0],
        [CAST, root + 2, 0, 0],
        [GET, IMP, 0, 0],
        [SLOT, i, 0, 0],
        [SET, ID, 0, 0],
        [SLOT, o, 0, 0],
        [SLOT, i, 0, 0],
        [SET, IMP, 0, 0],
        [SLOT, i, 0, 0],
        [SLOT, o, 0, 0],
    ];
    let p = put(out, place, &head);
    let from = root as usize * CLASS_WIDTH + ROWS_PLACE;
    let q = put_copies(rows, tables, out, p, from, count as usize, o);
    put(out, q, &[[SLOT, i, 0, 0]])
}

// What stands before R's inner block, of `this` and of another slot.
fn put_head(out: &mut [u32], place: usize, slot: u32, next: u32, target: u32, root: u32) -> usize
    requires { (place + head_length slot ≤ most_numbers) × (target < 65536) × (root < 65536) }
    ensures { Written (change_head slot next target root) out.old out.new place result }
{
    if slot == 0 {
        let lines = [
            [BLOCK, 3, 3, 0],
            [LOCAL, IDENTITY, 0, 0],
            [LOCAL, target + 2, 0, 0],
            [LOCAL, root + 2, 0, 0],
            [ASSIGN, next, 0, 0],
            [GET, ID, 0, 0],
            [SLOT, 0, 0, 0],
        ];
        put(out, place, &lines)
    } else {
        let lines = [
            [BLOCK, 3, 2, 0],
            [LOCAL, IDENTITY, 0, 0],
            [LOCAL, target + 2, 0, 0],
            [LOCAL, root + 2, 0, 0],
            [CHOOSE, 0, 0, 0],
            [IS_NULL, 0, 0, 0],
            [ASSIGN, next, 0, 0],
            [SLOT, slot, 0, 0],
            [NULL, 0, 0, 0],
        ];
        put(out, place, &lines)
    }
}

// R, of `this` and of another slot.
pub fn put_change(
    rows: &[u32],
    tables: &[u16],
    out: &mut [u32],
    place: usize,
    slot: u32,
    next: u32,
    target: u32,
) -> usize
    requires some_change { SomeChange rows.now tables.now place slot target }
    requires next_bound { (next + 2 < most_numbers) × (target < 65536) }
    ensures { ChangeWritten rows.now tables.now slot next target
        out.old out.new place result }
{
    let root = class_entry(tables, target, ROOT_PLACE);
    let p = put_head(out, place, slot, next, target, root);
    let q = put_renew(rows, tables, out, p, next, target, root);
    put(out, q, &[[SLOT, next, 0, 0]])
}
