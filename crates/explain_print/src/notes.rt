//! The lines of what there is to say of the values of a line.
ghost use Rattle.std.specs.Prelude.{◌≡◌, ◌++◌, ◌∷◌, map, OnOk};
ghost use Rattle.explain_model.specs.Explained.{malformed_words, path_text, place_words, said_words, unknown_words};
ghost use Rattle.explain_model.specs.of_record_notes.Seen.{note_seen};
ghost use Rattle.report.specs.Taking.{HasPut};
ghost use Rattle.text_model.specs.Words.{spaced};

use crate::lined::{Lined, put_each};
use byte_lines::SinkFault;
use explain_model::of_record_notes::{Note, What};
use no_memory::NoMemory;
use report::{LineTaker, Word, end_line, push_digits, push_part, push_parts};

/// Adds a path; that of the line's value itself is a dot.
fn push_path(out: &mut Vec<u8>, path: &[u8]) -> Result<(), NoMemory>
    ensures { OnOk result (out.new.items ≡ out.old.items ++ 32 ∷ path_text path.now) }
{
    out.push(b' ')?;
    if path.is_empty() {
        out.push(b'.')?;
    } else {
        out.extend_from_slice(path)?;
    }
    Ok(())
}

/// Adds a value that is not of its shape.
fn push_malformed(out: &mut Vec<u8>, path: &[u8], what: &str) -> Result<(), NoMemory>
    ensures { OnOk result (out.new.items ≡ out.old.items ++ spaced (malformed_words path.now what.now)) }
{
    push_part(out, &Word::Text("malformed"))?;
    push_path(out, path)?;
    push_part(out, &Word::Text(what))
}

/// Adds a line that is no JSON value.
fn push_place(out: &mut Vec<u8>, path: &[u8], place: u64) -> Result<(), NoMemory>
    ensures { OnOk result (out.new.items ≡ out.old.items ++ spaced (place_words path.now place)) }
{
    push_part(out, &Word::Text("malformed"))?;
    push_path(out, path)?;
    push_parts(out, &[Word::Text("at"), Word::Number(place)])
}

/// Adds a name that nobody reads.
fn push_unknown(out: &mut Vec<u8>, path: &[u8]) -> Result<(), NoMemory>
    ensures { OnOk result (out.new.items ≡ out.old.items ++ spaced (unknown_words path.now)) }
{
    push_part(out, &Word::Text("unknown"))?;
    push_path(out, path)
}

/// Adds a note.
fn push_note(out: &mut Vec<u8>, note: &Note) -> Result<(), NoMemory>
    ensures { OnOk result (out.new.items ≡ out.old.items ++ spaced (said_words (note_seen note.now))) }
{
    match note.what {
        What::Missing => push_malformed(out, &note.path, "missing"),
        What::WrongKind => push_malformed(out, &note.path, "wrong-kind"),
        What::OutOfRange => push_malformed(out, &note.path, "out-of-range"),
        What::UnknownForm => push_malformed(out, &note.path, "unknown-form"),
        What::Unread => push_unknown(out, &note.path),
        What::NoJson(place) => push_place(out, &note.path, place),
    }
}

impl Lined for Note {
    ghost use Rattle.explain_model.specs.Explained.{said_words};
    ghost use Rattle.explain_model.specs.of_record_notes.Seen.{note_seen};

    ghost words = { λ note. said_words (note_seen note) };

    fn write_line(&self, text: &mut Vec<u8>, line: u64) -> Result<(), NoMemory> {
        text.clear();
        push_digits(text, line)?;
        push_note(text, self)?;
        end_line(text)
    }
}

/// Hands over a line for each note, in order: `malformed`, the path and what is wrong there, or of
/// a line that is no JSON value where it stops being the front of one; or `unknown` and the path of
/// a name that nobody reads. Each replaces what the buffer held.
pub fn put_notes<T: LineTaker>(
    to: &mut T,
    text: &mut Vec<u8>,
    line: u64,
    notes: &[Note],
) -> Result<(), SinkFault>
    ensures { HasPut T.with_line T.IsPart line (T.taken to.old) (map said_words (map note_seen notes.now)) (T.taken to.new)
        (T.faults to.old) (T.faults to.new) result }
{
    put_each(to, text, line, notes)
}
