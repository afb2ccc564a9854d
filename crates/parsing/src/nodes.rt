// The pass over nodes: where each node of a body ends.
ghost use Rattle.std.specs.Prelude.{◌≡◌, List, ◌+◌, ◌≤◌, Some};
ghost use Rattle.language.specs.Limits.{largest};
ghost use Rattle.language.specs.Tree.{DeclaredType, Expr, Exprs};
ghost use Rattle.language.specs.Form.{several, node, body};
ghost use Rattle.parsing.specs.Columns.{most_of};
ghost use Rattle.parsing.specs.Places.{rows_from, parts_at, Ready, There};
ghost use Rattle.parsing.specs.Passes.{ToldNode, ToldNodes, Makes, parts_read};

use super::limits::Limits;
use super::lines::{check_row, pass_locals, refusal_at};
use language::{
    ASSIGN, BLOCK, CALL, CAST, CHANGE, CHOOSE, FALSE, GET, IS_NULL, LIMIT_REFUSAL, NEW, NULL,
    PLACE_REFUSAL, Refusal, SET, SLOT, TRUE, first, letter_at, second,
};

// How many V lines and how many children a node has.
#[derive(Clone, Copy)]
pub struct Parts {
    pub locals: u32,
    pub children: u32,
}

impl Parts {
    // A node without V lines.
    fn of_children(children: u32) -> Option<Parts>
        ensures { result ≡ Some (record { locals = 0; children = children }) }
    {
        Some(Parts {
            locals: 0,
            children,
        })
    }
}

// How many V lines and children follow a node of this letter with these numbers.
#[tactic(auto, using(crate::proofs::Places::parts_other), unfolding(crate::specs::Places::parts_at, language::specs::Rows::letter_among))]
fn parts_of(code: u32, a: u32, b: u32) -> Option<Parts>
    requires { b ≤ largest }
    ensures { result ≡ parts_at code a b }
{
    match code {
        TRUE | FALSE | NULL | SLOT | NEW | CHANGE => Parts::of_children(0),
        IS_NULL | GET | CAST | ASSIGN => Parts::of_children(1),
        SET => Parts::of_children(2),
        CHOOSE => Parts::of_children(3),
        CALL => Parts::of_children(b + 1),
        BLOCK => Some(Parts {
            locals: a,
            children: b,
        }),
        _ => None,
    }
}

// Passes a node, with the nesting that is left and the slots in scope.
#[cycle(pass_node_pass_nodes_pass_parts)]
fn pass_node(
    rows: &[u32],
    ends: &mut [u16],
    at: usize,
    nesting: u32,
    slots: u32,
    limits: Limits,
) -> Result<usize, Refusal>
    requires { Ready limits rows.now ends.old at × (slots ≤ limits.slots) }
    ensures { ToldNode limits rows.now
        ends.old at (node (most_of limits) nesting slots (at + 1)
        (rows_from rows.now at)) result ends.new }
{
    check_row(rows, at, limits)?;
    let code = letter_at(rows, at);
    let Some(parts) = parts_of(code, first(rows, at), second(rows, at)) else {
        return Err(refusal_at(PLACE_REFUSAL, at));
    };
    if nesting == 0 {
        return Err(refusal_at(LIMIT_REFUSAL, at));
    }
    if parts.children == 0 {
        if code == BLOCK {
            return Err(refusal_at(PLACE_REFUSAL, at)); // a block without expressions
        }
        ends[at] = (at + 1) as u16;
        return Ok(at + 1);
    }
    pass_parts(rows, ends, at, nesting - 1, slots, parts, limits)
}

// Passes what follows a node: its V lines, then its children.
#[cycle(pass_node_pass_nodes_pass_parts)]
fn pass_parts(
    rows: &[u32],
    ends: &mut [u16],
    at: usize,
    nesting: u32,
    slots: u32,
    parts: Parts,
    limits: Limits,
) -> Result<usize, Refusal>
    requires { Ready limits rows.now ends.old at × There limits rows.now at × (slots ≤ limits.slots) }
    ensures { (make : List DeclaredType → Exprs → Expr) → Makes parts.locals parts.children make
        → ToldNode limits rows.now
        ends.old at (parts_read limits nesting slots parts.locals parts.children make (at + 1)
        (rows_from rows.now (at + 1))) result ends.new }
{
    let first = pass_locals(rows, ends, at + 1, parts.locals, slots, limits)?;
    let next = pass_nodes(
        rows,
        ends,
        first,
        nesting,
        slots + parts.locals,
        parts.children,
        limits,
    )?;
    ends[at] = next as u16;
    Ok(next)
}

// Passes `count` nodes, one after another.
#[cycle(pass_node_pass_nodes_pass_parts)]
fn pass_nodes(
    rows: &[u32],
    ends: &mut [u16],
    at: usize,
    nesting: u32,
    slots: u32,
    count: u32,
    limits: Limits,
) -> Result<usize, Refusal>
    requires { Ready limits rows.now ends.old at × (slots ≤ limits.slots) }
    ensures { ToldNodes limits rows.now
        ends.old at (several (λ at rs. node (most_of limits) nesting slots at rs) count (at + 1)
        (rows_from rows.now at)) result ends.new }
{
    let mut i = at;
    for _ in 0..count {
        // Kept: with `?` in its place, measured, the check of large bodies takes 1.5 times as long.
        let passed = pass_node(rows, ends, i, nesting, slots, limits);
        let Ok(next) = passed else {
            return passed;
        };
        i = next;
    }
    Ok(i)
}

// Passes a body: one block.
pub fn pass_body(
    rows: &[u32],
    ends: &mut [u16],
    at: usize,
    slots: u32,
    limits: Limits,
) -> Result<usize, Refusal>
    requires { Ready limits rows.now ends.old at × (slots ≤ limits.slots) }
    ensures { ToldNode limits rows.now
        ends.old at (body (most_of limits) slots (at + 1) (rows_from rows.now at)) result
        ends.new }
{
    check_row(rows, at, limits)?;
    if letter_at(rows, at) != BLOCK {
        return Err(refusal_at(PLACE_REFUSAL, at));
    }
    pass_node(rows, ends, at, limits.nesting, slots, limits)
}
