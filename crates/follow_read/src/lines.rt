ghost use Rattle.std.specs.Prelude.{◌≡◌, IfOk, true};
ghost use Rattle.follow_model.specs.Laws.{is_within_limits};
ghost use Rattle.follow_read.specs.Lines.{ReadsFollow, follow_record_of_line};

use crate::records::follow_record;
use follow_records::FollowRecord;
use json_tree::read_value;
use record_read::{RecordFault, Scratch, lines_read_within_limits};
use std::alloc::Global;

/// The record of a line, or its first fault. `NoMemory` may come at any time. (Own)
/// `UnknownKind`: the kind is neither one of the five nor `rollback`.
/// Builds one JSON value for the line, in a scratch that may be kept from line to line.
pub fn read_follow(
    alloc: Global,
    scratch: &mut Scratch,
    line: &[u8],
) -> Result<FollowRecord, RecordFault>
    ensures reads { ReadsFollow result (follow_record_of_line line.now) }
    ensures within { IfOk result (λ r. is_within_limits r ≡ true) }
{
    lines_read_within_limits();
    let Some(value) = read_value(alloc, scratch, line)? else {
        return Err(RecordFault::BadJson);
    };
    follow_record(alloc, &value)
}
