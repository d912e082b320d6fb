ghost use Rattle.std.specs.Prelude.{◌≡◌, ℕ, List, IfOk, true};
ghost use Rattle.record_read.specs.Lines.{record_of_line};
ghost use Rattle.tx_records.specs.RecordLimits.{is_within_limits};

/// A law: whatever a line reads as is within the limits of records.
pub fn lines_read_within_limits()
    ensures { (line : List ℕ) → IfOk (record_of_line line) (λ r. is_within_limits r ≡ true) }
{}
