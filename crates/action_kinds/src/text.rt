//! What a line and its JSON read as.
ghost use Rattle.std.specs.Prelude.{◌≡◌, IfOk, option_map};
ghost use Rattle.json_tree.specs.View.{view};
ghost use Rattle.book_kinds.specs.Pools.{halves};
ghost use Rattle.action_kinds.specs.Lines.{action_of, action_of_json, item_of, parts_of};

use action_read::read_action;
use gov_actions::Action;
use gov_ids::{ActionId, read_action_id};
use json_fields::FieldFault;
use json_tree::{Scratch, Value, read_value};
use no_memory::NoMemory;
use std::alloc::Global;

/// What is before the first space and after it.
fn cut_at_space(text: &str) -> Option<(&str, &str)>
    ensures { option_map (λ p. (p.0.now, p.1.now)) result ≡ halves 32 text.now }
{
    text.split_once(' ')
}

/// The id and the JSON of a line that is a text.
fn cut_text(text: &str) -> Option<(&str, &str)>
    ensures { option_map (λ p. (p.0.now, p.1.now)) result ≡ parts_of text.now }
{
    let Some((first, rest)) = cut_at_space(text) else {
        return None;
    };
    if first == "action" {
        cut_at_space(rest)
    } else {
        None
    }
}

/// The id and the JSON of a line.
fn read_parts(line: &[u8]) -> Option<(&str, &str)>
    ensures { option_map (λ p. (p.0.now, p.1.now)) result ≡ parts_of line.now }
{
    match std::str::from_utf8(line) {
        Ok(text) => cut_text(text),
        Err(_) => None,
    }
}

/// The action of a JSON value.
fn read_tree(alloc: Global, value: &Value<'_>) -> Result<Option<Action>, NoMemory>
    ensures { IfOk result (λ a. a ≡ action_of_json (view value.now)) }
{
    match read_action(alloc, value) {
        Ok(action) => Ok(Some(action)),
        Err(FieldFault::NoMemory) => Err(NoMemory),
        Err(FieldFault::Missing) => Ok(None),
        Err(FieldFault::WrongKind) => Ok(None),
        Err(FieldFault::OutOfRange) => Ok(None),
    }
}

/// The action of a JSON text.
fn read_json(alloc: Global, text: &[u8]) -> Result<Option<Action>, NoMemory>
    ensures { IfOk result (λ a. a ≡ action_of text.now) }
{
    let mut scratch = Scratch::new(alloc);
    let Some(value) = read_value(alloc, &mut scratch, text)? else {
        return Ok(None);
    };
    read_tree(alloc, &value)
}

/// What a line reads as. Whether it is spelled as it is printed is not asked.
pub(crate) fn read_item(alloc: Global, line: &[u8]) -> Result<Option<(ActionId, Action)>, NoMemory>
    ensures { IfOk result (λ x. x ≡ item_of line.now) }
{
    let Some((id, json)) = read_parts(line) else {
        return Ok(None);
    };
    let Some(id) = read_action_id(id) else {
        return Ok(None);
    };
    match read_json(alloc, json.as_bytes())? {
        Some(action) => Ok(Some((id, action))),
        None => Ok(None),
    }
}
