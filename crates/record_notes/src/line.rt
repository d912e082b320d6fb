ghost use Rattle.std.specs.Prelude.{◌≡◌, ◌∷◌, [], codes, IfOk, IfSome, None, Some, map, option_map, true};
ghost use Rattle.json_place.specs.Steps.{place_of};
ghost use Rattle.json_tree.specs.View.{view};
ghost use Rattle.record_notes.specs.Lines.{is_malformed, noted_of_line};
ghost use Rattle.record_notes.specs.Notes.{most_depth, said_of};
ghost use Rattle.record_notes.specs.Seen.{note_seen, noted_seen};
ghost use Rattle.record_read.specs.Records.{record_in};
ghost use Rattle.record_stream.specs.Records.{is_within, reading_by};

use crate::note::{Note, Noted, What};
use crate::walk::{Walk, look};
use json_place::json_place;
use json_tree::{Value, read_value};
use no_memory::NoMemory;
use record_read::{Scratch, lines_read_within_limits, record};
use record_shapes::Shape;
use record_stream::{is_blank, reading_by};
use std::alloc::Global;
use tx_records::{FieldName, Reading};

/// Whether a line is no record.
fn is_bad(reading: &Reading) -> bool
    ensures { result ≡ is_malformed reading.now }
{
    !matches!(reading, Reading::Read(_))
}

/// Deeper than any shape goes.
#[tactic(auto, unfolding(crate::specs::Notes::most_depth))]
fn most_depth() -> usize
    ensures { result ≡ most_depth }
{
    16
}

/// What there is to say of a value: of a record only the names that nobody reads.
fn notes(alloc: Global, all: bool, value: &Value<'_>) -> Result<Vec<Note>, NoMemory>
    ensures { IfOk result (λ notes. map note_seen notes.items ≡ said_of all (view value.now)) }
{
    let mut walk = Walk {
        alloc,
        all,
        path: Vec::new(alloc),
        notes: Vec::new(alloc),
    };
    look(&mut walk, most_depth(), Shape::Record, value)?;
    Ok(walk.notes)
}

/// What a value says, and what more there is to say of it.
fn noted(alloc: Global, value: &Value<'_>) -> Result<Noted, NoMemory>
    ensures reads { IfOk result (λ noted. noted.reading ≡ reading_by (record_in (view value.now))) }
    ensures says { IfOk result (λ noted.
        map note_seen noted.notes.items ≡ said_of (is_malformed noted.reading) (view value.now)) }
{
    let reading = reading_by(record(alloc, value))?;
    let notes = notes(alloc, is_bad(&reading), value)?;
    Ok(Noted { reading, notes })
}

/// What a line says that is no JSON value: where it stops being the front of one.
fn no_json(alloc: Global, line: &[u8]) -> Result<Noted, NoMemory>
    ensures { IfOk result (λ noted. noted_seen noted ≡ record {
      reading = Reading.Malformed FieldName.Json None;
      said = (codes "json", What.NoJson (place_of line.now)) ∷ [];
    }) }
{
    let place = json_place(alloc, line)? as u64;
    let mut path = Vec::new(alloc);
    path.extend_from_slice(b"json")?;
    let mut notes = Vec::new(alloc);
    notes.push(Note {
        path,
        what: What::NoJson(place),
    })?;
    Ok(Noted {
        reading: Reading::Malformed {
            what: FieldName::Json,
            place: None,
        },
        notes,
    })
}

/// What a line says, and what more there is to say of it; nothing if it is blank. The scratch is
/// kept from line to line. (Own)
pub fn read_noted(
    alloc: Global,
    scratch: &mut Scratch,
    line: &[u8],
) -> Result<Option<Noted>, NoMemory>
    ensures says { IfOk result (λ noted. option_map noted_seen noted ≡ noted_of_line (Some line.now)) }
    ensures within { IfOk result (λ noted. IfSome noted (λ n. is_within n.reading ≡ true)) }
{
    // (laws: what is read is within the limits of records)
    lines_read_within_limits();
    if is_blank(line) {
        return Ok(None);
    }
    match read_value(alloc, scratch, line)? {
        Some(value) => Ok(Some(noted(alloc, &value)?)),
        None => Ok(Some(no_json(alloc, line)?)),
    }
}
