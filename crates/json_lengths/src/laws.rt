ghost use Rattle.json_lengths.specs.Laws.{TextsHoldTheirValues};

/// No JSON text is shorter than the value that it is, printed without spaces.
pub fn texts_hold_their_values()
    ensures { TextsHoldTheirValues }
{}
