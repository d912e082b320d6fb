ghost use Rattle.std.specs.Prelude.{◌≡◌, ◌++◌, OnOk};
ghost use Rattle.text_forms.specs.ActionText.{quoted};

use no_memory::NoMemory;

/// What is printed as JSON.
pub trait Json {
    ghost use Rattle.std.specs.Prelude.{ℕ, List};

    // its text
    ghost text: { Self → List ℕ };

    /// Adds its text.
    fn push_json(&self, out: &mut Vec<u8>) -> Result<(), NoMemory>
        ensures { OnOk result (out.new.items ≡ out.old.items ++ text self.now) };
}

/// Adds a text that needs no escapes.
pub fn push_quoted(out: &mut Vec<u8>, text: &str) -> Result<(), NoMemory>
    ensures { OnOk result (out.new.items ≡ out.old.items ++ quoted text.now) }
{
    out.push(b'"')?;
    out.extend_from_slice(text.as_bytes())?;
    out.push(b'"')?;
    Ok(())
}
