// The sums of a window of models, in tables that are lent: a line is added to its model's sums. Where the table is full, the
// window is narrowed to its lower models, and the sums of the others are given up.
#![tactic(auto)]

ghost use Rattle.std.specs.Prelude.{◌≡◌, ◌⊎◌, [], ℕ, suc, ◌≤◌, ◌<◌, ◌+◌, ◌*◌, ◌/◌, length};
ghost use Rattle.fleet.specs.Ranking.{is_within};
ghost use Rattle.fleet.specs.Entries.{entries};
ghost use Rattle.sums.specs.Window.{bucket_of, Sized, Chained, Sums, SomeSums, Found, Lacks};
ghost use Rattle.sums.specs.Window.{Put, SumsAfter, Added, Enters, Adds, below};
ghost use Rattle.sums.specs.Window.{KeepsEntry, Open, Narrows, Takes};

use fleet::{Counted, LINE_SIZE};

// How many models have sums, and the first number that is no longer of the window.
#[derive(Clone, Copy)]
pub struct Window {
    pub count: usize,
    pub end: u64,
}

// Why a line is not added: it takes a sum past the largest, or there is no room for its model.
#[derive(Clone, Copy)]
enum Unadded {
    Exceeds,
    Full,
}

// One more than the largest model.
pub const ALL_MODELS: u64 = 1 << 32;

// The largest sum.
const MOST_SUM: u32 = 4000000000;

// What spreads models over the buckets, and by how much its products are shifted.
const SPREAD: u64 = 2654435769;

const SPREAD_SHIFT: u32 = 18;

// The bucket of a model, of `buckets` buckets.
fn bucket(model: u32, buckets: usize) -> usize
    requires { 1 ≤ buckets }
    ensures { (result ≡ bucket_of buckets model) × (result < buckets) }
{
    let spread = (u64::from(model) * SPREAD) >> SPREAD_SHIFT;
    spread as usize & (buckets - 1)
}

// The entry of a model. In the chains entries count from 1.
fn find(table: &[u32], heads: &[u16], nexts: &[u16], model: u32) -> Option<usize>
    requires { SomeSums table.now heads.now nexts.now }
    ensures { (n : ℕ) → Sums table.now heads.now nexts.now n
        → Found table.now n model result }
{
    // Kept: 0 ends a chain, as `Chained` of specs/Window counts entries from 1 in the lent u16 of the chains.
    let mut e = usize::from(heads[bucket(model, heads.len())]);
    while e != 0 {
        if table[(e - 1) * LINE_SIZE] == model {
            return Some(e - 1);
        }
        e = usize::from(nexts[e - 1]);
    }
    None
}

// Puts an entry at the head of its bucket's chain; the entries before it are chained.
fn chain(table: &[u32], heads: &mut [u16], nexts: &mut [u16], e: usize)
    requires sized { Sized table.now heads.old nexts.old }
    requires e_in_bounds { e < length nexts.old }
    requires chained { Chained table.now heads.old nexts.old e }
    ensures chained_2 { Chained table.now heads.new nexts.new (suc e) }
    ensures heads_len_unchanged { length heads.new ≡ length heads.old }
    ensures nexts_len_unchanged { length nexts.new ≡ length nexts.old }
{
    let b = bucket(table[e * LINE_SIZE], heads.len());
    nexts[e] = heads[b];
    heads[b] = (e + 1) as u16;
}

// No sum of a line is past the largest.
fn is_within(line: Counted) -> bool
    ensures { result ≡ is_within line }
{
    line.printed <= MOST_SUM && line.spoiled <= MOST_SUM && line.cents <= MOST_SUM
}

// A model's sums with one more line of it, unless one of them goes past the largest.
fn plus(sums: Counted, line: Counted) -> Option<Counted>
    ensures { Added sums line result }
{
    let sums = Counted {
        model: sums.model,
        printed: sums.printed.checked_add(line.printed)?,
        spoiled: sums.spoiled.checked_add(line.spoiled)?,
        cents: sums.cents.checked_add(line.cents)?,
    };
    is_within(sums).then_some(sums)
}

// Puts a line at an entry.
fn put_entry(table: &mut [u32], e: usize, line: Counted)
    requires { e * 4 + 3 < length table.old }
    ensures { Put table.old table.new e line }
{
    table[e * LINE_SIZE] = line.model;
    table[e * LINE_SIZE + 1] = line.printed;
    table[e * LINE_SIZE + 2] = line.spoiled;
    table[e * LINE_SIZE + 3] = line.cents;
}

// The first line of a model as a new entry, unless a number of it is past the largest sum; how many models have sums then.
fn enter(
    table: &mut [u32],
    heads: &mut [u16],
    nexts: &mut [u16],
    count: usize,
    line: Counted,
) -> Option<usize>
    requires sums { Sums table.old heads.old nexts.old count }
    requires count_in_bounds { count < length nexts.old }
    requires lacks { Lacks table.old count line.model }
    ensures { Enters table.old heads.old nexts.old table.new heads.new nexts.new count line result }
{
    if !is_within(line) {
        return None;
    }
    put_entry(table, count, line);
    chain(table, heads, nexts, count);
    Some(count + 1)
}

// Adds a line to the sums of its model; how many models have sums then.
fn add(
    table: &mut [u32],
    heads: &mut [u16],
    nexts: &mut [u16],
    count: usize,
    line: Counted,
) -> Result<usize, Unadded>
    requires { Sums table.old heads.old nexts.old count }
    ensures { Adds table.old heads.old nexts.old table.new heads.new nexts.new count line result }
{
    if let Some(e) = find(table, heads, nexts, line.model) {
        let Some(sums) = plus(Counted::at(table, e), line) else {
            return Err(Unadded::Exceeds);
        };
        put_entry(table, e, sums);
        return Ok(count);
    }
    if count == nexts.len() {
        return Err(Unadded::Full);
    }
    enter(table, heads, nexts, count, line).ok_or(Unadded::Exceeds)
}

// How many of the first entries are of models below a number.
fn count_below(table: &[u32], count: usize, end: u64) -> usize
    requires { count * 4 ≤ length table.now }
    ensures { result ≡ length (below end (entries table.now count)) }
{
    let mut n = 0;
    for e in 0..count {
        if u64::from(table[e * LINE_SIZE]) < end {
            n += 1;
        }
    }
    n
}

// Where a window is to end so that about half of the models in the table stay in it, by halving the numbers between.
fn choose_end(table: &[u32], count: usize, low: u64, end: u64) -> u64
    requires count_in_bounds { count * 4 ≤ length table.now }
    requires low_lt_end { low < end }
    requires end_bound { end ≤ 4294967296 }
    ensures lower_bound { (low < result) × (result ≤ end) }
    ensures fact { (result ≡ low + 1) ⊎ (length (below result (entries table.now count)) ≤ count / 2) }
{
    let mut kept = low + 1;
    let mut over = end;
    while kept + 1 < over {
        let between = kept + (over - kept) / 2;
        if count_below(table, count, between) <= count / 2 {
            kept = between;
        } else {
            over = between;
        }
    }
    kept
}

// Keeps an entry after the `kept` before it where its model is below a number, and answers how many are kept then.
fn keep_entry(table: &mut [u32], kept: usize, e: usize, end: u64) -> usize
    requires { (kept ≤ e) × (e * 4 + 3 < length table.old) }
    ensures { KeepsEntry table.old table.new kept e end result }
{
    let line = Counted::at(table, e);
    if u64::from(line.model) < end {
        put_entry(table, kept, line);
        return kept + 1;
    }
    kept
}

// Keeps the entries of models below a number, in their order, and answers how many these are.
fn keep_below(table: &mut [u32], count: usize, end: u64) -> usize
    requires { count * 4 ≤ length table.old }
    ensures result_after { entries table.new result ≡ below end (entries table.old count) }
    ensures upper_bound { result ≤ count }
    ensures table_len_unchanged { length table.new ≡ length table.old }
{
    let mut kept = 0;
    for e in 0..count {
        kept = keep_entry(table, kept, e, end);
    }
    kept
}

// Chains the first entries anew.
fn chain_all(table: &[u32], heads: &mut [u16], nexts: &mut [u16], count: usize)
    requires sized { Sized table.now heads.old nexts.old }
    requires count_in_bounds { count ≤ length nexts.old }
    ensures chained { Chained table.now heads.new nexts.new count }
    ensures heads_len_unchanged { length heads.new ≡ length heads.old }
    ensures nexts_len_unchanged { length nexts.new ≡ length nexts.old }
{
    heads.fill(0);
    for e in 0..count {
        chain(table, heads, nexts, e);
    }
}

// Opens a window over no sums at all.
pub fn open_window(table: &[u32], heads: &mut [u16], nexts: &mut [u16]) -> Window
    requires { Sized table.now heads.old nexts.old }
    ensures count_value { (result.count ≡ 0) × (result.end ≡ 4294967296) }
    ensures sums_after { SumsAfter table.now heads.old nexts.old
        table.now heads.new nexts.new [] 0 }
{
    chain_all(table, heads, nexts, 0);
    Window {
        count: 0,
        end: ALL_MODELS,
    }
}

// Narrows a full window.
fn narrow(table: &mut [u32], heads: &mut [u16], nexts: &mut [u16], low: u64, w: Window) -> Window
    requires fact { Open table.old heads.old nexts.old low w }
    requires count_value { w.count ≡ length nexts.old }
    ensures { Narrows table.old heads.old nexts.old
        table.new heads.new nexts.new low w result }
{
    let end = choose_end(table, w.count, low, w.end);
    let kept = keep_below(table, w.count, end);
    chain_all(table, heads, nexts, kept);
    Window { count: kept, end }
}

// Narrows a full window, then takes a line of a model that has no sums in it.
// Out of line, since few lines come here: without it `take` is short enough to be inlined into the loop of a scan.
#[cold]
#[inline(never)]
fn take_narrowed(
    table: &mut [u32],
    heads: &mut [u16],
    nexts: &mut [u16],
    low: u64,
    w: Window,
    line: Counted,
) -> Option<Window>
    requires fact { Open table.old heads.old nexts.old low w }
    requires count_value { w.count ≡ length nexts.old }
    requires low_le_model { (low ≤ line.model) × (line.model < w.end) }
    requires lacks { Lacks table.old w.count line.model }
    ensures { Takes table.old heads.old nexts.old table.new
        heads.new nexts.new low w line result }
{
    let v = narrow(table, heads, nexts, low, w);
    if v.end <= u64::from(line.model) {
        return Some(v);
    }
    let count = enter(table, heads, nexts, v.count, line)?;
    Some(Window { count, end: v.end })
}

// Takes a line into the sums of a window, unless it takes a sum past the largest: a line of a model outside the window is passed
// over, and the window is narrowed where its table is full.
#[inline(always)]
pub fn take(
    table: &mut [u32],
    heads: &mut [u16],
    nexts: &mut [u16],
    low: u64,
    w: Window,
    line: Counted,
) -> Option<Window>
    requires { Open table.old heads.old nexts.old low w }
    ensures { Takes table.old heads.old nexts.old table.new
        heads.new nexts.new low w line result }
{
    let number = u64::from(line.model);
    if number < low || w.end <= number {
        return Some(w);
    }
    match add(table, heads, nexts, w.count, line) {
        Ok(count) => Some(Window { count, end: w.end }),
        Err(Unadded::Exceeds) => None,
        Err(Unadded::Full) => take_narrowed(table, heads, nexts, low, w, line),
    }
}
