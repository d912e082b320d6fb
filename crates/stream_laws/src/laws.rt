ghost use Rattle.stream_laws.specs.Laws.{BytesAreCertified, BytesAreResumable, BytesCountFits, BytesGiveForm};

/// Every ledger that a stream of bytes leaves has the form of the formats, with what is frozen.
pub fn bytes_give_form()
    ensures { BytesGiveForm }
{}

/// The count of a ledger that a stream of at most 2^48 bytes leaves fits in 64 bits.
pub fn bytes_count_fits()
    ensures { BytesCountFits }
{}

/// A checkpoint can be resumed from every ledger that a stream of at most 2^48 bytes leaves.
pub fn bytes_are_resumable()
    ensures { BytesAreResumable }
{}

/// A checker answers yes to the certificate of what is frozen of a ledger that bytes leave.
pub fn bytes_are_certified()
    ensures { BytesAreCertified }
{}
