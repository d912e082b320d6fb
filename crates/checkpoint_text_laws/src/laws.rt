ghost use Rattle.checkpoint_text_laws.specs.Laws.{CertificateHasNoFeed, CertificateIsCut, CheckpointIsCut, LinesHaveNoFeed, LinesStayShort, TextIsCut};

/// Does nothing. Its clauses are laws: no line of a checkpoint has a line feed in it, none is too
/// long at any line number, and so its text is cut into its lines, whatever bytes follow.
pub fn checkpoint_is_cut()
    ensures text { TextIsCut }
    ensures feeds { LinesHaveNoFeed }
    ensures short { LinesStayShort }
    ensures cut { CheckpointIsCut }
{}

/// Does nothing. Its clauses are laws: no line of a certificate has a line feed in it, and so the
/// text of one with no line too long is cut into its lines, whatever bytes follow.
pub fn certificate_is_cut()
    ensures feeds { CertificateHasNoFeed }
    ensures cut { CertificateIsCut }
{}
