// The plain lines of bodies, methods, classes and the whole program.
ghost use Rattle.plain.specs.Sources.{over};
ghost use Rattle.plain.specs.Emission.{SomeMethods, MethodsEmitted, SomeClass, ClassEmitted};
ghost use Rattle.plain.specs.Emission.{SomeClasses, ClassesEmitted, SomeProgram, ProgramWritten};
ghost use Rattle.plain.specs.Emission.{SomeBody, BodyEmitted, SomeMethod, MethodEmitted};

use super::node::{Next, Source};
use emitters::rows::{plain_type, put, put_fields, put_types};
use emitters::slots::{Scope, first_slots};
use language::{
    CLASS, EFFECT, FICKLE, FIELD, ID, IDENTITY, IMP, METHOD, PARAMETER, START, first, letter_at,
    second,
};

impl Source<'_> {
    // A body at row `at`, with n parameters.
    fn emit_body(&self, out: &mut [u32], place: usize, at: usize, count: usize) -> Next
        requires { over self.now SomeBody at place count }
        ensures { over self.now BodyEmitted out.old out.new at place count result.place result.at }
    {
        let slots = first_slots(count);
        let scope = Scope {
            slots: &slots,
            variables: count + 1,
            free: count as u32 + 1,
        };
        self.emit_node(out, place, at, &scope)
    }

    // A method: its heading without X lines, then its body, which stands at row `body`.
    fn emit_method(
        &self,
        out: &mut [u32],
        place: usize,
        at: usize,
        count: usize,
        body: usize,
    ) -> Next
        requires { over self.now SomeMethod at body place count }
        ensures { over self.now MethodEmitted out.old out.new at body place count result.place result.at }
    {
        let t = plain_type(first(self.rows, at));
        let p = put(out, place, &[[METHOD, t, second(self.rows, at), 0]]);
        let q = put_types(self.rows, out, p, at + 1, count, PARAMETER);
        self.emit_body(out, q, body, count)
    }

    // The methods from row `at` on, as long as M lines come.
    fn emit_methods(&self, out: &mut [u32], place: usize, at: usize) -> Next
        requires { over self.now SomeMethods at place }
        ensures { over self.now MethodsEmitted out.old out.new at place result.place result.at }
    {
        let mut next = Next { place, at };
        while letter_at(self.rows, next.at) == METHOD {
            let parameters = next.at + 1;
            let p = layout::count_rows(self.rows, parameters, PARAMETER);
            let effects = parameters + p;
            let x = layout::count_rows(self.rows, effects, EFFECT);
            next = self.emit_method(out, next.place, next.at, p, effects + x);
        }
        next
    }

    // A class: its C line, its fields, its methods.
    fn emit_class(&self, out: &mut [u32], place: usize, at: usize) -> Next
        requires { over self.now SomeClass at place }
        ensures { over self.now ClassEmitted out.old out.new at place result.place result.at }
    {
        let p = put(out, place, &[[CLASS, 0, second(self.rows, at) + 2, 0]]);
        let fields = at + 1;
        let n = layout::count_rows(self.rows, fields, FIELD);
        let q = put_fields(self.rows, out, p, fields, n);
        self.emit_methods(out, q, fields + n)
    }

    // The classes from row `at` on, as long as C lines come.
    fn emit_classes(&self, out: &mut [u32], place: usize, at: usize) -> Next
        requires { over self.now SomeClasses at place }
        ensures { over self.now ClassesEmitted out.old out.new at place result.place result.at }
    {
        let mut next = Next { place, at };
        while letter_at(self.rows, next.at) == CLASS {
            next = self.emit_class(out, next.place, next.at);
        }
        next
    }

    // The whole plain program; answers how many numbers it has.
    pub fn emit_program(&self, out: &mut [u32]) -> usize
        requires { over self.now SomeProgram }
        ensures { over self.now ProgramWritten out.old out.new result }
    {
        let head = [
            [CLASS, 0, 0, 0],
            [FIELD, FICKLE, IMP, 0],
            [CLASS, 0, 0, 0],
            [FIELD, IDENTITY, ID, 0],
        ];
        let p = put(out, 0, &head);
        let c = self.emit_classes(out, p, 0);
        let q = put(out, c.place, &[[START, 0, 0, 0]]);
        let n = self.emit_body(out, q, c.at + 1, 0);
        n.place
    }
}
