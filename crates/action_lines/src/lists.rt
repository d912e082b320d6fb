//! Arrays.
ghost use Rattle.std.specs.Prelude.{◌≡◌, ◌++◌, OnOk, codes, flat_map};
ghost use Rattle.std.specs.List.{join_by};

use crate::json::Json;
use coin_frac::Unit;
use credential_list::CredentialList;
use listed::Listed;
use no_memory::NoMemory;

/// Adds items, each after a comma.
fn push_others<J: Json>(out: &mut Vec<u8>, items: &[J]) -> Result<(), NoMemory>
    ensures { OnOk result (out.new.items ≡ out.old.items ++ flat_map (λ x. codes "," ++ J.text x) items.now) }
{
    for item in items {
        out.push(b',')?;
        item.push_json(out)?;
    }
    Ok(())
}

/// Adds items with a comma between each two.
fn push_items<J: Json>(out: &mut Vec<u8>, items: &[J]) -> Result<(), NoMemory>
    ensures { OnOk result (out.new.items ≡ out.old.items ++ join_by J.text (codes ",") items.now) }
{
    match items.split_first() {
        Some((first, others)) => {
            first.push_json(out)?;
            push_others(out, others)
        }
        None => Ok(()),
    }
}

/// Adds an array.
fn push_array<J: Json>(out: &mut Vec<u8>, items: &[J]) -> Result<(), NoMemory>
    ensures { OnOk result (out.new.items ≡
        out.old.items ++ (codes "[" ++ join_by J.text (codes ",") items.now ++ codes "]")) }
{
    out.push(b'[')?;
    push_items(out, items)?;
    out.push(b']')?;
    Ok(())
}

impl<J: Json> Json for Listed<J> {
    ghost use Rattle.std.specs.Prelude.{◌++◌, codes};
    ghost use Rattle.std.specs.List.{join_by};

    ghost text = { λ xs. codes "[" ++ join_by J.text (codes ",") xs ++ codes "]" };

    fn push_json(&self, out: &mut Vec<u8>) -> Result<(), NoMemory> {
        push_array(out, self.as_slice())
    }
}

impl Json for CredentialList {
    ghost use Rattle.text_forms.specs.ActionText.{credentials_json};

    ghost text = { credentials_json };

    fn push_json(&self, out: &mut Vec<u8>) -> Result<(), NoMemory> {
        push_array(out, self.as_slice())
    }
}

impl Json for [Unit; 5] {
    ghost use Rattle.text_forms.specs.ActionText.{fractions_json};

    ghost text = { fractions_json };

    fn push_json(&self, out: &mut Vec<u8>) -> Result<(), NoMemory> {
        push_array(out, self)
    }
}

impl Json for [Unit; 10] {
    ghost use Rattle.text_forms.specs.ActionText.{fractions_json};

    ghost text = { fractions_json };

    fn push_json(&self, out: &mut Vec<u8>) -> Result<(), NoMemory> {
        push_array(out, self)
    }
}
