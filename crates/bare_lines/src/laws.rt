ghost use Rattle.std.specs.Prelude.{◌≡◌, ◌++◌, ℕ, List, [], ◌∷◌, codes, drop};
ghost use Rattle.text_forms.specs.Lines.{joined};
ghost use Rattle.text_forms.specs.of_text_model.Words.{line_of};
ghost use Rattle.bare_lines.specs.Bare.{frozen_text};

/// A law: a line of the number 0 is passed on as its words with a space between each two, and a
/// line feed; with `frozen`, that is the first word.
pub fn lines_are_joined()
    ensures bare { (word : List ℕ) (words : List (List ℕ)) →
        drop 2 (line_of 0 (word ∷ words)) ≡ joined (word ∷ words) ++ 10 ∷ [] }
    ensures frozen { (words : List (List ℕ)) →
        frozen_text (line_of 0 words) ≡ joined (codes "frozen" ∷ words) ++ 10 ∷ [] }
{}
