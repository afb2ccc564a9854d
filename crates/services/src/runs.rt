// Runs under their C name.
ghost use Rattle.std.specs.Prelude.{◌≡◌};
ghost use Rattle.language.specs.Store.{run_of};
ghost use Rattle.packing.specs.Packed.{packed_answer, kind_after, content_after, steps_after};
ghost use Rattle.packing.specs.Packed.{objects_after, changes_after};

use telling::runs::{pack_run, tell_counts, tell_value};

// Runs rows over a store. Kind and content are stored where the run ends in a value, the counts where it is not refused;
// else they stay as they were.
#[unsafe(no_mangle)]
pub extern "C" fn fickle_run_rows(
    rows: &[u32],
    store: &mut [u32],
    fuel: u64,
    kind: &mut u32,
    content: &mut u32,
    steps: &mut u32,
    objects: &mut u32,
    changes: &mut u32,
) -> u64
    ensures value { result ≡ packed_answer (run_of rows.now fuel store.old).answer }
    ensures store_after { store.new ≡ (run_of rows.now fuel store.old).store }
    ensures kind_after { kind.new ≡ kind_after
        (run_of rows.now fuel store.old).answer kind.old }
    ensures content_after { content.new ≡ content_after
        (run_of rows.now fuel store.old).answer content.old }
    ensures steps_after { steps.new ≡ steps_after
        (run_of rows.now fuel store.old).answer steps.old }
    ensures objects_after { objects.new ≡ objects_after
        (run_of rows.now fuel store.old).answer objects.old }
    ensures changes_after { changes.new ≡ changes_after
        (run_of rows.now fuel store.old).answer changes.old }
{
    let answer = runner::run_rows(rows, store, fuel);
    tell_value(answer, kind, content);
    tell_counts(answer, steps, objects, changes);
    pack_run(answer)
}
