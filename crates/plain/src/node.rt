// The plain lines of a node, whatever its letter: a cycle of functions, one for each letter with parts of its own.
ghost use Rattle.plain.specs.Sources.{given_in, left_in};
ghost use Rattle.plain.specs.Emission.{SomeNode, SomeCast, SomeSet, SomeCall, SomeBlock, SomeNodes};
ghost use Rattle.plain.specs.Emission.{SomeArguments, NodeEmitted, CastEmitted, SetEmitted};
ghost use Rattle.plain.specs.Emission.{CallEmitted, BlockEmitted, NodesEmitted, ArgumentsEmitted};

use emitters::changes::{put_change, put_new};
use emitters::rows::{plain_type, put, put_reads, put_slot, put_types};
use emitters::slots::{Scope, with_locals};
use language::{
    ASSIGN, BLOCK, CALL, CAST, CHANGE, CHOOSE, FALSE, GET, ID, IDENTITY, IMP, IS_NULL, LOCAL,
    METHOD_WIDTH, METHODS_FROM, NEW, NULL, ROWS_BEFORE, SET, SLOT, TRUE, class_entry, first,
    letter_at, second,
};

// What is translated: the rows, with the table of classes, that of methods, and the lookup class of each row.
#[derive(Clone, Copy)]
pub struct Source<'a> {
    pub rows: &'a [u32],
    pub tables: &'a [u16],
    pub methods: &'a [u16],
    pub lookups: &'a [u16],
}

// The next place of the buffer and the next row of the source.
#[derive(Clone, Copy)]
pub struct Next {
    pub place: usize,
    pub at: usize,
}

impl Source<'_> {
    // The plain lines of the node at row `at`.
    #[cycle(nodes)]
    pub fn emit_node(&self, out: &mut [u32], place: usize, at: usize, scope: &Scope<'_>) -> Next
        requires { given_in self.now scope.now SomeNode at place }
        ensures { left_in self.now scope.now NodeEmitted out.old out.new at place
            result.place result.at }
    {
        let letter = letter_at(self.rows, at);
        let number = first(self.rows, at);
        let next = at + 1;
        match letter {
            TRUE | FALSE | NULL => {
                let place = put(out, place, &[[letter, 0, 0, 0]]);
                Next { place, at: next }
            }
            SLOT => {
                let place = put_slot(out, place, scope.slots[number as usize]);
                Next { place, at: next }
            }
            NEW => {
                let place = put_new(out, place, scope.free, number);
                Next { place, at: next }
            }
            CHANGE => {
                let slot = scope.slots[number as usize];
                let target = second(self.rows, at);
                let place = put_change(
                    self.rows,
                    self.tables,
                    out,
                    place,
                    slot,
                    scope.free,
                    target,
                );
                Next { place, at: next }
            }
            IS_NULL => {
                let p = put(out, place, &[[IS_NULL, 0, 0, 0]]);
                self.emit_node(out, p, next, scope)
            }
            ASSIGN => {
                let p = put(out, place, &[[ASSIGN, scope.slots[number as usize], 0, 0]]);
                self.emit_node(out, p, next, scope)
            }
            GET => {
                let lines = [
                    [GET, number, 0, 0],
                    [CAST, u32::from(self.lookups[at]) + 2, 0, 0],
                    [GET, IMP, 0, 0],
                ];
                let p = put(out, place, &lines);
                self.emit_node(out, p, next, scope)
            }
            CAST => self.emit_cast(out, place, at, scope),
            SET => self.emit_set(out, place, at, scope),
            CALL => self.emit_call(out, place, at, scope),
            CHOOSE => {
                let p = put(out, place, &[[CHOOSE, 0, 0, 0]]);
                self.emit_nodes(out, p, next, scope, 3)
            }
            _ => self.emit_block(out, place, at, scope),
        }
    }

    // K.
    #[cycle(nodes)]
    fn emit_cast(&self, out: &mut [u32], place: usize, at: usize, scope: &Scope<'_>) -> Next
        requires { given_in self.now scope.now SomeCast at place }
        ensures { left_in self.now scope.now CastEmitted out.old out.new at place
            result.place result.at }
    {
        let object = scope.free;
        let head = [
            [BLOCK, 1, 1, 0],
            [LOCAL, IDENTITY, 0, 0],
            [CHOOSE, 0, 0, 0],
            [IS_NULL, 0, 0, 0],
            [ASSIGN, object, 0, 0],
        ];
        let p = put(out, place, &head);
        let inner = Scope {
            free: object + 1,
            ..*scope
        };
        let r = self.emit_node(out, p, at + 1, &inner);
        let tail = [
            [NULL, 0, 0, 0],
            [GET, ID, 0, 0],
            [CAST, first(self.rows, at) + 2, 0, 0],
            [GET, IMP, 0, 0],
            [SLOT, object, 0, 0],
        ];
        let place = put(out, r.place, &tail);
        Next { place, at: r.at }
    }

    // U: the object and the value in temporaries, then the act.
    #[cycle(nodes)]
    fn emit_set(&self, out: &mut [u32], place: usize, at: usize, scope: &Scope<'_>) -> Next
        requires { given_in self.now scope.now SomeSet at place }
        ensures { left_in self.now scope.now SetEmitted out.old out.new at place
            result.place result.at }
    {
        let name = first(self.rows, at);
        let class = u32::from(self.lookups[at]);
        let field = class_entry(self.tables, class, name as usize) as usize;
        let row = class_entry(self.tables, class, ROWS_BEFORE + field) as usize;
        let object = scope.free;
        let head = [
            [BLOCK, 2, 3, 0],
            [LOCAL, IDENTITY, 0, 0],
            [LOCAL, plain_type(first(self.rows, row)), 0, 0],
        ];
        let p = put(out, place, &head);
        let inner = Scope {
            free: object + 2,
            ..*scope
        };
        let r = self.emit_arguments(out, p, at + 1, &inner, 2, object);
        let tail = [
            [SET, name, 0, 0],
            [CAST, class + 2, 0, 0],
            [GET, IMP, 0, 0],
            [SLOT, object, 0, 0],
            [SLOT, object + 1, 0, 0],
        ];
        let place = put(out, r.place, &tail);
        Next { place, at: r.at }
    }

    // Q: the receiver and the arguments in temporaries, then the call.
    #[cycle(nodes)]
    fn emit_call(&self, out: &mut [u32], place: usize, at: usize, scope: &Scope<'_>) -> Next
        requires { given_in self.now scope.now SomeCall at place }
        ensures { left_in self.now scope.now CallEmitted out.old out.new at place
            result.place result.at }
    {
        let name = first(self.rows, at);
        let count = second(self.rows, at);
        let class = u32::from(self.lookups[at]);
        let entry = class_entry(self.tables, class, METHODS_FROM + name as usize) as usize;
        let row = usize::from(self.methods[(entry - 1) * METHOD_WIDTH]);
        let object = scope.free;
        let nodes = count + 1;
        let head = [[BLOCK, nodes, count + 2, 0], [LOCAL, IDENTITY, 0, 0]];
        let p = put(out, place, &head);
        let p = put_types(self.rows, out, p, row + 1, count as usize, LOCAL);
        let inner = Scope {
            free: object + nodes,
            ..*scope
        };
        let r = self.emit_arguments(out, p, at + 1, &inner, nodes, object);
        let tail = [
            [CALL, name, count, 0],
            [CAST, class + 2, 0, 0],
            [GET, IMP, 0, 0],
            [SLOT, object, 0, 0],
        ];
        let q = put(out, r.place, &tail);
        let place = put_reads(out, q, object + 1, count);
        Next { place, at: r.at }
    }

    // B: its locals become slots of their own.
    #[cycle(nodes)]
    fn emit_block(&self, out: &mut [u32], place: usize, at: usize, scope: &Scope<'_>) -> Next
        requires { given_in self.now scope.now SomeBlock at place }
        ensures { left_in self.now scope.now BlockEmitted out.old out.new at place
            result.place result.at }
    {
        let locals = first(self.rows, at);
        let count = second(self.rows, at);
        let p = put(out, place, &[[BLOCK, locals, count, 0]]);
        let p = put_types(self.rows, out, p, at + 1, locals as usize, LOCAL);
        let slots = with_locals(*scope, locals as usize);
        let inner = Scope {
            slots: &slots,
            variables: scope.variables + locals as usize,
            free: scope.free + locals,
        };
        self.emit_nodes(out, p, at + 1 + locals as usize, &inner, count)
    }

    // Nodes one after another.
    #[cycle(nodes)]
    fn emit_nodes(
        &self,
        out: &mut [u32],
        place: usize,
        at: usize,
        scope: &Scope<'_>,
        count: u32,
    ) -> Next
        requires { given_in self.now scope.now SomeNodes at place count }
        ensures { left_in self.now scope.now NodesEmitted out.old out.new at place count
            result.place result.at }
    {
        let mut next = Next { place, at };
        for _ in 0..count {
            next = self.emit_node(out, next.place, next.at, scope);
        }
        next
    }

    // Nodes one after another, each put in its temporary, from `slot` on.
    #[cycle(nodes)]
    fn emit_arguments(
        &self,
        out: &mut [u32],
        place: usize,
        at: usize,
        scope: &Scope<'_>,
        count: u32,
        slot: u32,
    ) -> Next
        requires { given_in self.now scope.now SomeArguments at place count slot }
        ensures { left_in self.now scope.now ArgumentsEmitted out.old out.new at place count slot
            result.place result.at }
    {
        let mut next = Next { place, at };
        for temporary in slot..slot + count {
            let p = put(out, next.place, &[[ASSIGN, temporary, 0, 0]]);
            next = self.emit_node(out, p, next.at, scope);
        }
        next
    }
}
