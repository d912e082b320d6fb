//! The fields of an object. Each call takes whether one is before, and returns whether one is now.
ghost use Rattle.std.specs.Prelude.{◌≡◌, ◌++◌, [], ◌∷◌, IfOk, OnOk, codes};
ghost use Rattle.text_forms.specs.ActionText.{field, maybe, quoted};
ghost use Rattle.action_lines.specs.Adding.{Adds, comma};

use crate::json::{Json, push_quoted};
use no_memory::NoMemory;

/// Adds the name of a field.
fn push_name(out: &mut Vec<u8>, begun: bool, name: &str) -> Result<(), NoMemory>
    ensures { OnOk result (out.new.items ≡ out.old.items ++ comma begun ++ quoted name.now ++ codes ":") }
{
    if begun {
        out.push(b',')?;
    }
    push_quoted(out, name)?;
    out.push(b':')?;
    Ok(())
}

/// Adds a field.
pub fn push_field<J: Json>(
    out: &mut Vec<u8>,
    begun: bool,
    name: &str,
    value: &J,
) -> Result<bool, NoMemory>
    ensures { IfOk result (Adds out.old.items begun (field name.now (J.text value.now) ∷ []) out.new.items) }
{
    push_name(out, begun, name)?;
    value.push_json(out)?;
    Ok(true)
}

/// Adds a field, if it is there.
pub fn push_maybe<J: Json>(
    out: &mut Vec<u8>,
    begun: bool,
    name: &str,
    value: &Option<J>,
) -> Result<bool, NoMemory>
    ensures { IfOk result (Adds out.old.items begun (maybe name.now J.text value.now) out.new.items) }
{
    match value {
        Some(value) => push_field(out, begun, name, value),
        None => Ok(begun),
    }
}
