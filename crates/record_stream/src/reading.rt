ghost use Rattle.std.specs.Prelude.{◌≡◌, IfOk, Result, true};
ghost use Rattle.record_read.specs.LineFaults.{LineFault};
ghost use Rattle.record_read.specs.Reads.{ReadsRecord};
ghost use Rattle.record_stream.specs.Records.{IsReadOf, is_blank, is_within, reading_by};
ghost use Rattle.tx_records.specs.RecordLimits.{is_within_limits};
ghost use Rattle.tx_records.specs.declared.record.Reading.{Reading};
ghost use Rattle.tx_records.specs.declared.record.Record.{Record};

use no_memory::NoMemory;
use record_read::{RecordFault, Scratch, read_record_with};
use std::alloc::Global;
use tx_records::{FieldName, Reading, Record};

/// Whether a line holds spaces, tabs and carriage returns alone.
pub fn is_blank(line: &[u8]) -> bool
    ensures { result ≡ is_blank line.now }
{
    line.iter()
        .all(|byte| *byte == b' ' || *byte == b'\t' || *byte == b'\r')
}

/// What is read where a reader of records answers so. (Own)
pub fn reading_by(answer: Result<Record, RecordFault>) -> Result<Reading, NoMemory>
    ensures says { (said : Result Record LineFault) → ReadsRecord answer said → IfOk result (λ reading. reading ≡ reading_by said) }
    ensures within { IfOk answer (λ r. is_within_limits r ≡ true) → IfOk result (λ reading. is_within reading ≡ true) }
{
    match answer {
        Ok(record) => Ok(Reading::Read(record)),
        Err(RecordFault::BadJson) => Ok(malformed(FieldName::Json, None)),
        Err(RecordFault::UnknownKind) => Ok(malformed(FieldName::Kind, None)),
        Err(RecordFault::BadField { name, place }) => Ok(malformed(name, place)),
        Err(RecordFault::NoMemory) => Err(NoMemory),
    }
}

/// What a line that is no record says.
fn malformed(what: FieldName, place: Option<u32>) -> Reading
    ensures { result ≡ Reading.Malformed what place }
{
    Reading::Malformed { what, place }
}

/// What a line says; nothing if it is blank. The scratch is kept from line to line. (Own)
pub fn read_line(
    alloc: Global,
    scratch: &mut Scratch,
    line: &[u8],
) -> Result<Option<Reading>, NoMemory>
    ensures { IfOk result (IsReadOf line.now) }
{
    if is_blank(line) {
        return Ok(None);
    }
    let reading = reading_by(read_record_with(alloc, scratch, line))?;
    Ok(Some(reading))
}
