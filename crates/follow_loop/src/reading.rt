ghost use Rattle.std.specs.Prelude.{◌≡◌, IfOk, IfSome, Some, true};
ghost use Rattle.std.specs.Option.{option_copied};
ghost use Rattle.record_stream.specs.Records.{is_blank, is_blank_byte};
ghost use Rattle.follow_records.specs.declared.record.FollowReading.{FollowReading};
ghost use Rattle.follow_loop.specs.Readings.{IsFollowReadOf, follow_reading_of_line, is_reading_within};

use follow_read::read_follow;
use follow_records::FollowReading;
use no_memory::NoMemory;
use record_read::{RecordFault, Scratch};
use std::alloc::Global;
use tx_records::FieldName;

// Whether a byte is a space, a tab or a carriage return.
fn blank_byte(byte: u8) -> bool
    ensures { result ≡ is_blank_byte byte }
{
    byte == b' ' || byte == b'\t' || byte == b'\r'
}

// Whether a line holds these alone.
fn blank(line: &[u8]) -> bool
    ensures { result ≡ is_blank line.now }
{
    line.iter().all(|byte| blank_byte(*byte))
}

// What a line that is no record says.
fn malformed(what: FieldName, place: Option<u32>) -> Option<FollowReading>
    ensures { result ≡ Some (FollowReading.Malformed what place) }
{
    Some(FollowReading::Malformed { what, place })
}

// What a line says; nothing if it is blank.
fn read_bytes(
    alloc: Global,
    scratch: &mut Scratch,
    line: &[u8],
) -> Result<Option<FollowReading>, NoMemory>
    ensures { IfOk result (IsFollowReadOf line.now) }
{
    if blank(line) {
        return Ok(None);
    }
    match read_follow(alloc, scratch, line) {
        Ok(record) => Ok(Some(FollowReading::Read(record))),
        Err(RecordFault::BadJson) => Ok(malformed(FieldName::Json, None)),
        Err(RecordFault::UnknownKind) => Ok(malformed(FieldName::Kind, None)),
        Err(RecordFault::BadField { name, place }) => Ok(malformed(name, place)),
        Err(RecordFault::NoMemory) => Err(NoMemory),
    }
}

// What a line says, if it is not too long. The scratch is kept from line to line.
pub(crate) fn read(
    alloc: Global,
    scratch: &mut Scratch,
    line: Option<&[u8]>,
) -> Result<Option<FollowReading>, NoMemory>
    ensures says { IfOk result (λ said. said ≡ follow_reading_of_line (option_copied line.entry)) }
    ensures within { IfOk result (λ said. IfSome said (λ reading. is_reading_within reading ≡ true)) }
{
    match line {
        Some(bytes) => read_bytes(alloc, scratch, bytes),
        None => Ok(Some(FollowReading::TooLong)),
    }
}
