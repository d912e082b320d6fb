ghost use Rattle.std.specs.Prelude.{◌≡◌, IfOk, true};
ghost use Rattle.tx_records.specs.RecordLimits.{is_within_limits};
ghost use Rattle.record_read.specs.Lines.{record_of_line};
ghost use Rattle.record_read.specs.Reads.{ReadsRecord};

use crate::fault::RecordFault;
use crate::records::record;
use json_tree::{Scratch, read_value};
use std::alloc::Global;
use tx_records::Record;

/// The record of a line, or its first fault. `NoMemory` may come at any time. (Own)
pub fn read_record(alloc: Global, line: &[u8]) -> Result<Record, RecordFault>
    ensures reads { ReadsRecord result (record_of_line line.now) }
    ensures within { IfOk result (λ r. is_within_limits r ≡ true) }
{
    let mut scratch = Scratch::new(alloc);
    read_record_with(alloc, &mut scratch, line)
}

/// The record of a line, read with a kept scratch: a new one costs as much as a short line. (Own)
pub fn read_record_with(
    alloc: Global,
    scratch: &mut Scratch,
    line: &[u8],
) -> Result<Record, RecordFault>
    ensures reads { ReadsRecord result (record_of_line line.now) }
    ensures within { IfOk result (λ r. is_within_limits r ≡ true) }
{
    let Some(value) = read_value(alloc, scratch, line)? else {
        return Err(RecordFault::BadJson);
    };
    record(alloc, &value)
}
