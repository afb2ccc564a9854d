// Price terms read from text, and the terms that rule on some days (document 02, §11).
#![tactic(auto)]

ghost use Rattle.std.specs.Prelude.{◌≡◌, ◌+◌, ◌/◌, ◌%◌, ◌≤◌, ◌<◌, length, get_or, set};
ghost use Rattle.language.specs.Refusals.{refusal};
ghost use Rattle.language.specs.Effects.{join, effect_of};
ghost use Rattle.prices.specs.Terms.{first_number, term_line};
ghost use Rattle.prices.specs.Prices.{covers};
ghost use Rattle.prices.specs.Calendar.{last_day};
ghost use Rattle.language.specs.Limits.{largest};
ghost use Rattle.terms.specs.Tables.{is_marked, RuledBy, mark_words, most_days, entry};
ghost use Rattle.terms.specs.Entering.{is_outranked, day_entered, days_entered};

use language::{LINE_REFUSAL, Refusal};
use prices::TermLine;

// The refusal of a line whose first day follows its last or whose signing number occurred.
const TERM_REFUSAL: u32 = 23;

// One mark for each signing number, 64 to a word.
pub const MARK_WORDS: usize = 1024;

// The days of the longest month.
pub const MOST_DAYS: usize = 31;

// Consecutive days from one of the range on, at most as many as the longest month has: the first, and how many.
#[derive(Clone, Copy)]
pub struct Days {
    pub first: u32,
    pub count: usize,
    ghost in_range: { first ≤ last_day },
    ghost few: { count ≤ most_days },
}

// What a table keeps of the term that rules on a day: its line, its signing number and its cents.
#[derive(Clone, Copy)]
pub struct Entry {
    pub line: u32,
    pub signing: u32,
    pub cents: u32,
}

// The number that a line begins with.
fn read_first(s: &[u8]) -> Option<(u32, usize)>
    ensures { result ≡ first_number s.now }
{
    let f = fields::find_field(s, 0);
    Some((fields::read_decimal(f)?, f.len()))
}

// The term's line that a text begins with.
fn read_term(s: &[u8]) -> Option<TermLine>
    ensures { result ≡ term_line s.now }
{
    let (model, at) = read_first(s)?;
    let (first, at) = fields::read_number(s, at)?;
    let (last, at) = fields::read_number(s, at)?;
    let (cents, at) = fields::read_number(s, at)?;
    let (signing, at) = fields::read_number(s, at)?;
    if s.len() <= at || s[at] != b'\n' {
        return None;
    }
    let end = at + 1;
    Some(TermLine {
        model,
        first,
        last,
        cents,
        signing,
        end,
    })
}

// Whether a signing number is marked.
fn is_marked(marks: &[u64], n: u32) -> bool
    requires { (n ≤ largest) × (length marks.now ≡ mark_words) }
    ensures { result ≡ is_marked marks.now n }
{
    classes::is_member(marks[(n / 64) as usize], n % 64 + 1)
}

// Marks a signing number.
fn mark(marks: &mut [u64], n: u32)
    requires { (n ≤ largest) × (length marks.old ≡ mark_words) }
    ensures { marks.new ≡ set marks.old (n / 64)
        (join (get_or marks.old (n / 64) 0) (effect_of (n % 64 + 1))) }
{
    marks[(n / 64) as usize] |= classes::effect_of(n % 64 + 1);
}

// Whether a term holds on a day; both edge days belong to it.
fn covers(term: &TermLine, day: u32) -> bool
    ensures { result ≡ covers term.now.first term.now.last day }
{
    (term.first..=term.last).contains(&day)
}

// Whether a term is entered for a day and has a higher signing number.
fn is_outranked(held: Option<Entry>, signing: u32) -> bool
    ensures { result ≡ is_outranked held signing }
{
    held.is_some_and(|entry| signing < entry.signing)
}

// Enters a term for a day on which it holds, unless the one entered there has a higher signing number.
fn enter_day(table: &mut [Option<Entry>], i: usize, entry: Entry)
    requires { i < length table.old }
    ensures { table.new ≡ day_entered table.old i entry }
{
    if !is_outranked(table[i], entry.signing) {
        table[i] = Some(entry);
    }
}

// Enters the term of a line for those of some days that lie between its edge days.
fn enter_days(table: &mut [Option<Entry>], days: Days, line: u32, term: &TermLine)
    requires { length table.old ≡ most_days }
    ensures { table.new ≡ days_entered days.first term.now.first term.now.last
        (entry line term.now.signing term.now.cents) table.old 0 days.count }
{
    let TermLine { signing, cents, .. } = *term;
    let entry = Entry {
        line,
        signing,
        cents,
    };
    for i in 0..days.count {
        if covers(term, days.first + i as u32) {
            enter_day(table, i, entry);
        }
    }
}

// A refusal on a line.
fn refused(number: u32, line: u32) -> Refusal
    ensures { result ≡ refusal number line }
{
    Refusal { number, line }
}

// What a scan tells of terms: how many they are, and for each of some days what is kept of the term that rules.
#[derive(Clone, Copy)]
pub struct Scanned {
    pub terms: usize,
    pub table: [Option<Entry>; MOST_DAYS],
}

// Scans a text of terms, and tells how many they are and which rule a model on some days, or the refusal of the terms. The
// signing numbers that occurred are marked.
pub fn scan_terms(text: &[u8], model: u32, days: Days) -> Result<Scanned, Refusal>
    ensures { RuledBy text.now model days.first days.count result }
{
    let mut marks = [0u64; MARK_WORDS];
    let mut table = [None; MOST_DAYS];
    let mut at = 0;
    let mut line: u32 = 1;
    while at < text.len() {
        let Some(term) = read_term(&text[at..]) else {
            return Err(refused(LINE_REFUSAL, line)); // a malformed line
        };
        if term.last < term.first {
            return Err(refused(TERM_REFUSAL, line)); // the first day follows the last
        }
        let occurred = is_marked(&marks, term.signing);
        if occurred {
            return Err(refused(TERM_REFUSAL, line)); // a signing number that occurred
        }
        mark(&mut marks, term.signing);
        if term.model == model {
            enter_days(&mut table, days, line, &term);
        }
        at += term.end;
        line += 1;
    }
    Ok(Scanned {
        terms: line as usize - 1,
        table,
    })
}
