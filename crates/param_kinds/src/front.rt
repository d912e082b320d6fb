//! What follows the name of a parameter in its line.
ghost use Rattle.std.specs.Prelude.{◌≡◌, ℕ, ◌++◌, ◌∷◌, List, None, IfSome, codes};

/// What follows these bytes, if they come first.
fn after<'a>(line: &'a [u8], first: &[u8]) -> Option<&'a [u8]>
    ensures some { IfSome result (λ rest. line.now ≡ first.now ++ rest.now) }
    ensures none { result ≡ None → (rest : List ℕ) → line.now ≡ first.now ++ rest → ⊥ }
{
    line.strip_prefix(first)
}

/// The value in the line of a parameter, if the line is of that name.
pub(crate) fn value_part<'a>(line: &'a [u8], name: &str) -> Option<&'a [u8]>
    ensures some { IfSome result (λ value. line.now ≡ codes "param " ++ (name.now ++ 32 ∷ value.now)) }
    ensures none { result ≡ None → (value : List ℕ) → line.now ≡ codes "param " ++ (name.now ++ 32 ∷ value) → ⊥ }
{
    let named = after(line, b"param ")?;
    let spaced = after(named, name.as_bytes())?;
    after(spaced, b" ")
}
