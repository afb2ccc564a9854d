// What every service shares: the letters of records, reading a row and the table of classes, the row of a line, and a
// refusal.
#![tactic(auto)]

ghost use Rattle.std.specs.Prelude.{◌≡◌, ◌+◌, ◌*◌, ◌<◌, length, get_or};
ghost use Rattle.language.specs.ClassTables.{class_width};
ghost use Rattle.language.specs.Rows.{numbers_after, row, is_row};

// The letters, in the order of document 01's table.
// Kept: numbers, no enum. Rows are lent from C as plain numbers, and a letter in them is its code, which `code` of specs/Rows names.
pub const CLASS: u32 = 67;

pub const FIELD: u32 = 70;

pub const METHOD: u32 = 77;

pub const PARAMETER: u32 = 80;

pub const EFFECT: u32 = 88;

pub const START: u32 = 83;

pub const BLOCK: u32 = 66;

pub const LOCAL: u32 = 86;

pub const TRUE: u32 = 84;

pub const FALSE: u32 = 76;

pub const NULL: u32 = 78;

pub const SLOT: u32 = 73;

pub const IS_NULL: u32 = 90;

pub const GET: u32 = 71;

pub const CAST: u32 = 75;

pub const NEW: u32 = 87;

pub const CHANGE: u32 = 82;

pub const ASSIGN: u32 = 65;

pub const SET: u32 = 85;

pub const CALL: u32 = 81;

pub const CHOOSE: u32 = 74;

// The largest number on a line, and the largest name.
pub const LARGEST: u32 = 65535;

pub const MOST_NAME: u32 = 255;

// How many numbers a row has.
pub const NUMBERS_A_ROW: usize = 4;

// What a checked program may have at most: rows, classes, fields of a class, parameters of a method.
pub const MOST_ROWS: u32 = 60000;

pub const MOST_CLASSES: u32 = 64;

pub const MOST_FIELDS: u16 = 17;

pub const MOST_PARAMETERS: u32 = 8;

// What stands for null, or for a slot that is not there, where the number of a type is stored.
// Kept: a number, no Option. The table of slots holds plain numbers, two types to each (`numbers` of types/specs/Answers).
pub const NO_TYPE: u32 = 65535;

// Classes Identity and FickleObject of a plain program, and their fields `imp` and `id`.
pub const IDENTITY: u32 = 1;

pub const FICKLE: u32 = 2;

pub const IMP: u32 = 255;

pub const ID: u32 = 254;

// Where the table of classes has what (specs/ClassTables.antt): how many numbers a class has there, and from which on its
// methods, kind, superclass, root, count of fields and rows of fields stand.
pub const CLASS_WIDTH: usize = 576;

pub const METHODS_FROM: usize = 256;

pub const KIND_PLACE: usize = 512;

pub const SUPER_PLACE: usize = 513;

pub const ROOT_PLACE: usize = 514;

pub const COUNT_PLACE: usize = 515;

pub const ROWS_PLACE: usize = 520;

// The places of fields count from 1: after this place of the table stand their rows.
pub const ROWS_BEFORE: usize = ROWS_PLACE - 1;

// How many classes there may be, Object included, and how many numbers the table of classes has then.
pub const ALL_CLASSES: usize = MOST_CLASSES as usize + 1;

pub const TABLE_LENGTH: usize = ALL_CLASSES * CLASS_WIDTH;

// Where the table of methods has what (specs/MethodTables.antt): how many numbers a method has there. The row of its M line
// is the first; its class, its number of parameters and the row of its body have these places.
pub const METHOD_WIDTH: usize = 4;

pub const OWNER_PLACE: usize = 1;

pub const PARAMETERS_PLACE: usize = 2;

pub const BODY_PLACE: usize = 3;

// How many numbers of a store a value has, and an object: its class, then its fields.
pub const VALUE_WIDTH: usize = 1;

pub const OBJECT_WIDTH: usize = 1 + MOST_FIELDS as usize * VALUE_WIDTH;

// How many objects there may be, and how many calls active at once.

pub const MOST_OBJECTS: u32 = 65535;

pub const MOST_CALLS: u32 = 64;

// The refusals and the stops, in the order of document 01's list.
// Kept: numbers, no enum. The list is numbered, `refuse` of specs/Results carries the number, and the services return it to C.
pub const LINE_REFUSAL: u32 = 1;

pub const LIMIT_REFUSAL: u32 = 2;

pub const PLACE_REFUSAL: u32 = 3;

pub const NAME_REFUSAL: u32 = 4;

pub const KIND_REFUSAL: u32 = 5;

pub const OVERRIDE_REFUSAL: u32 = 6;

pub const SLOT_REFUSAL: u32 = 7;

pub const MEMBER_REFUSAL: u32 = 8;

pub const TYPE_REFUSAL: u32 = 9;

pub const EFFECT_REFUSAL: u32 = 10;

pub const CHANGE_REFUSAL: u32 = 11;

pub const RESERVED_REFUSAL: u32 = 12;

pub const ROOM_REFUSAL: u32 = 13;

pub const SPENT_STOP: u32 = 14;

pub const DEEP_STOP: u32 = 15;

pub const FULL_STOP: u32 = 16;

// A type as a program writes it: bool, or a class by its number.
#[derive(Drop)]
pub struct Type {
    pub number: u32,
}

impl Type {
    // Every number but this one is a class's.
    pub const BOOL: u32 = 255;

    pub const OBJECT: u32 = 0;

    // The type that a number on a line stands for.
    pub fn from_number(number: u32) -> Type
        ensures { result.number ≡ number }
    {
        Type { number }
    }

    // The type of a class.
    // Kept: a second constructor that does the same, since document 01 names both.
    pub fn from_class(class: u32) -> Type
        ensures { result.number ≡ class }
    {
        Type { number: class }
    }
}

// A refusal: its number in document 01's list or one of document 02's, and the line that it stands on.
#[derive(Clone, Copy, Debug, PartialEq, Eq)]
pub struct Refusal {
    pub number: u32,
    pub line: u32,
}

// A line's row, its letter's code and two numbers, and where the line ends.
#[derive(Clone, Copy)]
pub struct Line {
    pub code: u32,
    pub first: u32,
    pub second: u32,
    pub end: usize,
}

// The letter's code of a row, the first number after it, and the second.
pub fn letter_at(rows: &[u32], at: usize) -> u32
    requires { at * 4 < length rows.now }
    ensures { result ≡ get_or rows.now (at * 4) 0 }
{
    rows[at * NUMBERS_A_ROW]
}

pub fn first(rows: &[u32], at: usize) -> u32
    requires { at * 4 + 1 < length rows.now }
    ensures { result ≡ get_or rows.now (at * 4 + 1) 0 }
{
    rows[at * NUMBERS_A_ROW + 1]
}

pub fn second(rows: &[u32], at: usize) -> u32
    requires { at * 4 + 2 < length rows.now }
    ensures { result ≡ get_or rows.now (at * 4 + 2) 0 }
{
    rows[at * NUMBERS_A_ROW + 2]
}

// What stands at a place of a class's part in the table of classes.
pub fn class_entry(table: &[u16], class: u32, place: usize) -> u32
    requires { class * class_width + place < length table.now }
    ensures { result ≡ get_or table.now (class * class_width + place) 0 }
{
    table[class as usize * CLASS_WIDTH + place] as u32
}

// How many made-numbers follow the letter of an ASCII code; 3, more than any record has, where it is no letter's.
// Kept: 3 and no None, as `numbers_after` of specs/Rows has it, by which `is_row` needs no case of its own for other codes.
// Kept: more arms than counts, in the order of document 01's table. The compiler tests letters of one arm that follow one
// another in the alphabet as a range, and with an arm for each count the form pass and `write_text` were slower.
#[tactic(auto, unfolding(crate::specs::Rows::numbers_after, crate::specs::Rows::letter_among))]
pub fn count_numbers(code: u32) -> u32
    ensures { result ≡ numbers_after code }
{
    match code {
        CLASS | FIELD | METHOD => 2,
        PARAMETER | EFFECT => 1,
        START => 0,
        BLOCK => 2,
        LOCAL => 1,
        TRUE | FALSE | NULL => 0,
        SLOT => 1,
        IS_NULL => 0,
        GET | CAST | NEW => 1,
        CHANGE => 2,
        ASSIGN | SET => 1,
        CALL => 2,
        CHOOSE => 0,
        _ => 3,
    }
}

// Is this a row: a letter's code, its numbers in range, the rest 0.
#[tactic(auto, using(crate::proofs::Rows::is_row_by))]
pub fn is_row(code: u32, a: u32, b: u32, c: u32) -> bool
    ensures { result ≡ is_row (row code a b c) }
{
    c == 0
        && match count_numbers(code) {
            0 => a == 0 && b == 0,
            1 => a <= LARGEST && b == 0,
            2 => a <= LARGEST && b <= LARGEST,
            _ => false,
        }
}
