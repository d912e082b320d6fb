// From a text to its value, in one pass over the tokens.
ghost use Rattle.std.specs.Prelude.{◌≡◌, ◌<◌, [], length, Some, None, Err, IfOk, OnOk, option_map, if◌then◌else◌};
ghost use Rattle.std.specs.Str.{is_utf8};
ghost use Rattle.json.specs.Json.{value, items, members};
ghost use Rattle.serde_json.specs.Data.{no_members};
ghost use Rattle.serde_json.specs.Read.{of_json, of_items, of_members, converted, read as read_text};
ghost use Rattle.json_tree.specs.View.{view, items_view, members_view};

use crate::number::number_of_text;
use crate::value::Value;
use json::{Reader, Scratch, Token};
use no_memory::NoMemory;
use std::alloc::{AllocError, AllocFailed, Global};

/// The greatest depth of arrays and objects.
const MAX_DEPTH: usize = 127;

/// How many members the outermost object has room for at once. Few lines that have them have more.
const FIRST_ROOM: usize = 20;

/// Why there is no value.
#[derive(Clone, Copy, Debug, Drop, PartialEq, Eq)]
enum Fault {
    /// The text is no JSON value.
    Invalid,
    /// Out of memory.
    NoMemory,
}

impl From<json::Invalid> for Fault {
    ghost use Rattle.std.specs.Prelude.{◌≡◌};
    ghost use Rattle.json_tree.specs.declared.read.Fault.TheVariants as faults;

    ghost from_gives = { λ _ e. e ≡ faults.Invalid };

    fn from(_invalid: json::Invalid) -> Fault {
        Fault::Invalid
    }
}

impl From<AllocError> for Fault {
    ghost use Rattle.std.specs.Prelude.{◌≡◌};
    ghost use Rattle.json_tree.specs.declared.read.Fault.TheVariants as faults;

    ghost from_gives = { λ _ e. e ≡ faults.NoMemory };

    fn from(_refused: AllocError) -> Fault {
        Fault::NoMemory
    }
}

impl<T: Drop> From<AllocFailed<T>> for Fault {
    ghost use Rattle.std.specs.Prelude.{◌≡◌};
    ghost use Rattle.json_tree.specs.declared.read.Fault.TheVariants as faults;

    ghost from_gives = { λ _ e. e ≡ faults.NoMemory };

    fn from(_refused: AllocFailed<T>) -> Fault {
        Fault::NoMemory
    }
}

/// The JSON value of bytes, as `serde_json` reads it; none if they are no JSON value.
/// The scratch takes texts with escapes; callers can reuse it for each line.
/// `NoMemory` may come at any time.
pub fn read_value<'a>(
    alloc: Global,
    scratch: &'a mut Scratch,
    bytes: &'a [u8],
) -> Result<Option<Value<'a>>, NoMemory>
    ensures { IfOk result (λ v. option_map view v ≡ (if is_utf8 bytes.now then read_text bytes.now else None)) }
{
    let Ok(text) = simdutf8::basic::from_utf8(bytes) else {
        return Ok(None);
    };
    match value_of_text(alloc, text, scratch) {
        Ok(value) => Ok(Some(value)),
        Err(Fault::Invalid) => Ok(None),
        Err(Fault::NoMemory) => Err(NoMemory),
    }
}

/// The value of a text.
fn value_of_text<'a>(
    alloc: Global,
    text: &'a str,
    scratch: &'a mut Scratch,
) -> Result<Value<'a>, Fault>
    ensures ok { IfOk result (λ v. read_text text.now ≡ Some (view v)) }
    ensures err { result ≡ Err Fault.Invalid → read_text text.now ≡ None }
{
    let mut reader = Reader::new(text, scratch)?;
    let value = read(alloc, &mut reader, MAX_DEPTH)?;
    if reader.next().is_some() {
        return Err(Fault::Invalid);
    }
    Ok(value)
}

/// The next value of the reader.
#[cycle(read)]
#[inline(always)]
fn read<'a>(alloc: Global, reader: &mut Reader<'a>, depth: usize) -> Result<Value<'a>, Fault>
    ensures ok { IfOk result (λ v. converted of_json (value depth reader.old) ≡ Some (view v, reader.new)) }
    ensures shorter { OnOk result (length reader.new < length reader.old) }
    ensures err { result ≡ Err Fault.Invalid → converted of_json (value depth reader.old) ≡ None }
{
    let token = reader.next().ok_or(Fault::Invalid)?;
    match token {
        Token::String(text) => Ok(Value::String(text)),
        Token::Number(text) => match number_of_text(text) {
            Some(number) => Ok(Value::Number(number)),
            None => Err(Fault::Invalid),
        },
        Token::Bool(b) => Ok(Value::Bool(b)),
        Token::Null => Ok(Value::Null),
        Token::EndObject | Token::EndArray | Token::Key(_) | Token::Bad => Err(Fault::Invalid),
        Token::BeginArray => {
            if depth == 0 {
                return Err(Fault::Invalid);
            }
            Ok(Value::Array(read_items(alloc, reader, depth - 1)?))
        }
        Token::BeginObject => {
            if depth == 0 {
                return Err(Fault::Invalid);
            }
            Ok(Value::Object(read_members(alloc, reader, depth - 1)?))
        }
    }
}

/// The values up to the end of an array.
#[cycle(read)]
#[inline(never)]
fn read_items<'a>(
    alloc: Global,
    reader: &mut Reader<'a>,
    depth: usize,
) -> Result<Vec<Value<'a>>, Fault>
    ensures ok { IfOk result
        (λ v. converted of_items (items (value depth) (length reader.old) reader.old)
        ≡ Some (items_view v.items, reader.new)) }
    ensures shorter { OnOk result (length reader.new < length reader.old) }
    ensures err { result ≡ Err Fault.Invalid
        → converted of_items (items (value depth) (length reader.old) reader.old) ≡ None }
{
    let mut found = Vec::new(alloc);
    'items: while !reader.take_end_array() {
        let item = read(alloc, reader, depth)?;
        found.push(item)?;
    }
    Ok(found)
}

/// An empty list for the members of an object at this depth.
fn room_at<'a>(alloc: Global, depth: usize) -> Result<Vec<(&'a str, Value<'a>)>, AllocError>
    ensures { IfOk result (λ v. v.items ≡ []) }
{
    if depth == MAX_DEPTH - 1 {
        Vec::with_capacity(alloc, FIRST_ROOM)
    } else {
        Ok(Vec::new(alloc))
    }
}

/// The members up to the end of an object.
#[cycle(read)]
#[inline(never)]
fn read_members<'a>(
    alloc: Global,
    reader: &mut Reader<'a>,
    depth: usize,
) -> Result<Vec<(&'a str, Value<'a>)>, Fault>
    ensures ok { IfOk result
        (λ v. converted (λ ms. of_members ms no_members)
        (members (value depth) (length reader.old) reader.old)
        ≡ Some (members_view v.items, reader.new)) }
    ensures shorter { OnOk result (length reader.new < length reader.old) }
    ensures err { result ≡ Err Fault.Invalid
        → converted (λ ms. of_members ms no_members)
        (members (value depth) (length reader.old) reader.old) ≡ None }
{
    let mut found = room_at(alloc, depth)?;
    'members: while let Some(name) = reader.next_key()? {
        let member = read(alloc, reader, depth)?;
        found.push((name, member))?;
    }
    Ok(found)
}
