ghost use Rattle.claim_lengths.specs.Laws.{ClaimsAreShort};

/// No line of the results of a certificate is too long, if its snapshot has the form of the
/// formats. It does nothing.
pub fn claims_are_short()
    ensures { ClaimsAreShort }
{}
