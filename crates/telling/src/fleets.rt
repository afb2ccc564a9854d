// The labels of a run, and the report over a fleet.
ghost use Rattle.std.specs.Prelude.{◌≡◌, Result};
ghost use Rattle.packing.specs.Packed.{printed_after, spoiled_after, report_number, report_told};

use fleet::{Fault, Labels};
use language::Refusal;

// Stores the labels where they were counted.
pub fn tell_labels(count: Result<Labels, Refusal>, printed: &mut u32, spoiled: &mut u32)
    ensures printed_after { printed.new ≡ printed_after count printed.old }
    ensures spoiled_after { spoiled.new ≡ spoiled_after count spoiled.old }
{
    if let Ok(labels) = count {
        *printed = labels.printed;
        *spoiled = labels.spoiled;
    }
}

// The number of a report's answer, 0 where it was written; stores how many bytes were written, or the fault's place.
pub fn tell_report(report: Result<usize, Fault>, told: &mut u64) -> u32
    ensures value { result ≡ report_number report }
    ensures told_after { told.new ≡ report_told report }
{
    match report {
        Ok(bytes) => {
            *told = bytes as u64;
            0
        }
        Err(fault) => {
            *told = fault.place as u64;
            fault.number
        }
    }
}
