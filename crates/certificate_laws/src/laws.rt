ghost use Rattle.certificate_laws.specs.Laws.{CertificatesAreCut, CertificatesAreRight, CertificatesFit, CertifiedAreAnsweredYes, NoneIsAnsweredNo};

/// The certificates of the run over bytes are of snapshots that fit. It does nothing.
pub fn certificates_fit()
    ensures { CertificatesFit }
{}

/// The text of certificates of snapshots that fit is cut into these certificates. It does nothing.
pub fn certificates_are_cut()
    ensures { CertificatesAreCut }
{}

/// The certificates of the run over bytes are cut into texts each of which is right. It does
/// nothing.
pub fn certificates_are_right()
    ensures { CertificatesAreRight }
{}

/// A check of the certificates of the run over bytes answers yes to each, if it is done, and no to
/// none, whatever ends it. It does nothing.
pub fn certified_are_answered_yes()
    ensures done { CertifiedAreAnsweredYes }
    ensures part { NoneIsAnsweredNo }
{}
