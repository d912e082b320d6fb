ghost use Rattle.std.specs.Prelude.{◌≡◌, codes};
ghost use Rattle.std.specs.Result.{result_map_both};
ghost use Rattle.json_tree.specs.View.{view};
ghost use Rattle.json_fields.specs.Entries.{needed_in};
ghost use Rattle.json_fields.specs.Kinds.{text_in};
ghost use Rattle.record_read.specs.Entries.{slot_in};
ghost use Rattle.follow_read.specs.Lines.{ReadsFollow, follow_record_in, is_rollback, rollback_in};

use follow_records::FollowRecord;
use json_fields::{FieldFault, field, read_number_below, read_text};
use json_tree::Value;
use record_read::{RecordFault, record};
use std::alloc::Global;
use tx_records::FieldName;
use tx_records::limits::SLOT_LIMIT;

/// The word of a record's kind.
fn kind_of<'a>(object: &Value<'a>) -> Result<&'a str, FieldFault>
    ensures { result_map_both (λ kind. kind.now) (λ e. e) result ≡ needed_in (codes "kind") text_in (view object.now) }
{
    read_text(field(object, "kind")?)
}

/// Whether a value is a rollback.
fn is_rollback(object: &Value<'_>) -> bool
    ensures { result ≡ is_rollback (view object.now) }
{
    match kind_of(object) {
        Ok(kind) => kind == "rollback",
        Err(_) => false,
    }
}

/// The slot of a rollback.
fn slot_of(object: &Value<'_>) -> Result<u64, FieldFault>
    ensures { result ≡ needed_in (codes "slot") slot_in (view object.now) }
{
    read_number_below(SLOT_LIMIT, field(object, "slot")?)
}

/// A rollback.
fn rollback(object: &Value<'_>) -> Result<FollowRecord, RecordFault>
    ensures { ReadsFollow result (rollback_in (view object.now)) }
{
    match slot_of(object) {
        Ok(slot) => Ok(FollowRecord::Rollback { slot }),
        Err(_) => Err(RecordFault::BadField {
            name: FieldName::Slot,
            place: None,
        }),
    }
}

/// A record of any kind.
pub fn follow_record(alloc: Global, object: &Value<'_>) -> Result<FollowRecord, RecordFault>
    ensures { ReadsFollow result (follow_record_in (view object.now)) }
{
    if is_rollback(object) {
        rollback(object)
    } else {
        Ok(FollowRecord::Plain(record(alloc, object)?))
    }
}
