//! Numbers, fractions, hashes, ids and pairs.
ghost use Rattle.std.specs.Prelude.{◌≡◌, ◌≤◌, ◌++◌, OnOk, length};
ghost use Rattle.text_forms.specs.ActionText.{hash_json};

use crate::json::Json;
use coin_frac::{Ratio, Unit};
use gov_ids::{
    Account, ActionId, Credential, push_account, push_action_id, push_credential, push_hash,
};
use no_memory::NoMemory;
use report::push_digits;

impl Json for u16 {
    ghost use Rattle.std.specs.Prelude.{decimal};

    ghost text = { decimal };

    fn push_json(&self, out: &mut Vec<u8>) -> Result<(), NoMemory> {
        push_digits(out, *self)
    }
}

impl Json for u32 {
    ghost use Rattle.std.specs.Prelude.{decimal};

    ghost text = { decimal };

    fn push_json(&self, out: &mut Vec<u8>) -> Result<(), NoMemory> {
        push_digits(out, *self)
    }
}

impl Json for u64 {
    ghost use Rattle.std.specs.Prelude.{decimal};

    ghost text = { decimal };

    fn push_json(&self, out: &mut Vec<u8>) -> Result<(), NoMemory> {
        push_digits(out, *self)
    }
}

impl<A: Json, B: Json> Json for (A, B) {
    ghost use Rattle.std.specs.Prelude.{[], ◌∷◌};
    ghost use Rattle.text_forms.specs.ActionText.{array};

    ghost text = { λ p. array (A.text p.0 ∷ B.text p.1 ∷ []) };

    fn push_json(&self, out: &mut Vec<u8>) -> Result<(), NoMemory> {
        out.push(b'[')?;
        self.0.push_json(out)?;
        out.push(b',')?;
        self.1.push_json(out)?;
        out.push(b']')?;
        Ok(())
    }
}

impl Json for Unit {
    ghost use Rattle.text_forms.specs.ActionText.{fraction_json};

    ghost text = { fraction_json };

    fn push_json(&self, out: &mut Vec<u8>) -> Result<(), NoMemory> {
        (self.num(), self.den()).push_json(out)
    }
}

impl Json for Ratio {
    ghost use Rattle.text_forms.specs.ActionText.{fraction_json};

    ghost text = { fraction_json };

    fn push_json(&self, out: &mut Vec<u8>) -> Result<(), NoMemory> {
        (self.num(), self.den()).push_json(out)
    }
}

/// Adds a hash of at most 32 bytes.
fn push_hash_json(out: &mut Vec<u8>, hash: &[u8]) -> Result<(), NoMemory>
    requires { length hash.now ≤ 32 }
    ensures { OnOk result (out.new.items ≡ out.old.items ++ hash_json hash.now) }
{
    out.push(b'"')?;
    push_hash(out, hash)?;
    out.push(b'"')?;
    Ok(())
}

impl Json for [u8; 32] {
    ghost use Rattle.text_forms.specs.ActionText.{hash_json};

    ghost text = { hash_json };

    fn push_json(&self, out: &mut Vec<u8>) -> Result<(), NoMemory> {
        push_hash_json(out, self)
    }
}

impl Json for [u8; 28] {
    ghost use Rattle.text_forms.specs.ActionText.{hash_json};

    ghost text = { hash_json };

    fn push_json(&self, out: &mut Vec<u8>) -> Result<(), NoMemory> {
        push_hash_json(out, self)
    }
}

impl Json for ActionId {
    ghost use Rattle.text_forms.specs.ActionText.{action_id_json};

    ghost text = { action_id_json };

    fn push_json(&self, out: &mut Vec<u8>) -> Result<(), NoMemory> {
        out.push(b'"')?;
        push_action_id(out, self)?;
        out.push(b'"')?;
        Ok(())
    }
}

impl Json for Credential {
    ghost use Rattle.text_forms.specs.ActionText.{credential_json};

    ghost text = { credential_json };

    fn push_json(&self, out: &mut Vec<u8>) -> Result<(), NoMemory> {
        out.push(b'"')?;
        push_credential(out, self)?;
        out.push(b'"')?;
        Ok(())
    }
}

impl Json for Account {
    ghost use Rattle.gov_ids.specs.Spelling.{account_text};
    ghost use Rattle.text_forms.specs.ActionText.{quoted};

    ghost text = { λ a. quoted (account_text a) };

    fn push_json(&self, out: &mut Vec<u8>) -> Result<(), NoMemory> {
        out.push(b'"')?;
        push_account(out, self)?;
        out.push(b'"')?;
        Ok(())
    }
}
