ghost use Rattle.check_loop.specs.Texts.{TextsAreCertificates};

/// A law: lines, none of which is too long, are cut into texts as certificates are.
pub fn texts_are_cut()
    ensures { TextsAreCertificates }
{}
