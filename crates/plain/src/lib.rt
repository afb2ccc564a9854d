// The translator: the plain rows of an accepted program, written into a lent buffer.
// The check has filled the tables; nothing is typed here. What has no room is counted and not written, so a first
// call over a short buffer tells how many numbers there are, and a second one writes them.
#![tactic(auto)]

mod node;
mod program;

ghost use Rattle.std.specs.Prelude.{◌≡◌, length};
ghost use Rattle.plain.specs.Sources.{over};
ghost use Rattle.plain.specs.Emission.{SomeProgram};
ghost use Rattle.language.specs.Translation.{translation};
ghost use Rattle.language.specs.Filling.{answer, buffer};
ghost use Rattle.plain.specs.Answers.{PlainWritten, SomeAccepted};

use language::{NUMBERS_A_ROW, ROOM_REFUSAL, Refusal};
use limits::{check_limits, check_reserved};
use node::Source;

// The plain rows, where there is room for them.
fn write_plain(source: &Source<'_>, out: &mut [u32]) -> Result<usize, Refusal>
    requires { over source.now SomeProgram }
    ensures { over source.now PlainWritten out.old out.new result }
{
    let count = source.emit_program(&mut []);
    if out.len() < count {
        return Err(Refusal {
            number: ROOM_REFUSAL,
            line: 0,
        });
    }
    let written = source.emit_program(out);
    Ok(written / NUMBERS_A_ROW)
}

// Translates rows that the check accepts, with what its passes left in their tables.
pub fn translate_checked(
    rows: &[u32],
    ends: &[u16],
    tables: &[u16],
    methods: &[u16],
    lookups: &[u16],
    out: &mut [u32],
) -> Result<usize, Refusal>
    requires { SomeAccepted rows.now ends.now tables.now methods.now lookups.now }
    ensures { (result ≡ answer 4 (translation rows.now) (length out.old))
        × (out.new ≡ buffer (translation rows.now) out.old) }
{
    check_limits(rows, ends, tables)?;
    check_reserved(rows, ends, 0)?;
    let source = Source {
        rows,
        tables,
        methods,
        lookups,
    };
    write_plain(&source, out)
}
