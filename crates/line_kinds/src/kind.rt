use no_memory::NoMemory;

/// A kind of line: each item has one line, and each such line reads as its item.
pub trait LineKind {
    /// What a line says.
    type Item: Drop;

    ghost use Rattle.std.specs.Prelude.{◌≡◌, ◌++◌, ℕ, Bool, true, List, Option, Some, IfSome, OnOk, map};
    ghost use Rattle.line_kinds.specs.Cuts.{are_plain};
    ghost use Rattle.text_model.specs.Words.{line_of};

    // the words of its line
    ghost words: { Self.Item → List (List ℕ) };

    // which items have a line
    ghost form: { Self.Item → Bool };

    // what words read as
    ghost reading: { List (List ℕ) → Option Self.Item };

    /// Does nothing. Its clauses are laws: what is read has the form, and the line of an item of
    /// the form is made of plain words that read as the item.
    fn laws()
        ensures formed { (ws : List (List ℕ)) → IfSome (reading ws) (λ x. form x ≡ true) }
        ensures plain { (x : Self.Item) → form x ≡ true → are_plain (words x) ≡ true }
        ensures back { (x : Self.Item) → form x ≡ true → reading (words x) ≡ Some x };

    /// Reads the words of a line. Whether they are spelled as they are printed is not asked.
    fn read(texts: &[&str]) -> Option<Self::Item>
        ensures { result ≡ reading (map (λ w. w.now) texts.now) };

    /// Appends the line of an item, behind the number 0 and a space.
    fn push(item: &Self::Item, out: &mut Vec<u8>) -> Result<(), NoMemory>
        ensures { OnOk result (out.new.items ≡ out.old.items ++ line_of 0 (words item.now)) };
}
