//! The first line of a certificate.
ghost use Rattle.std.specs.Prelude.{◌≡◌};
ghost use Rattle.state_kinds.specs.Heads.{version_of};

use line_kinds::{LineKind, read_number, word};
use no_memory::NoMemory;
use report::{Word, push_line};
use state_kinds::NowLines;

/// Reads a version, as the line of where a chain is has one: major, a point, minor.
fn read_version(text: &str) -> Option<(u32, u32)>
    ensures { result ≡ version_of text.now }
{
    let words = [
        "now", "slot", "0", "epoch", "0", "version", text, "dormant", "0",
    ];
    let (_, _, version, _) = <NowLines as LineKind>::read(&words)?;
    Some(version)
}

/// The first line of a certificate: the epoch that ends, and the version and the treasury at its
/// beginning.
pub(crate) struct CertificateLines;

impl LineKind for CertificateLines {
    /// The treasury is in lovelace.
    type Item = (u64, (u32, u32), u64);

    ghost use Rattle.certificate_lists.specs.Kinds.{certificate_in};
    ghost use Rattle.certificate_lists.specs.Rows.{certificate_line, is_certificate_line};

    ghost words = { certificate_line };

    ghost form = { is_certificate_line };

    ghost reading = { certificate_in };

    fn laws() {
        // (laws: how versions are read)
        <NowLines as LineKind>::laws();
    }

    fn read(texts: &[&str]) -> Option<(u64, (u32, u32), u64)> {
        let epoch = read_number(word(texts, 2))?;
        let version = read_version(word(texts, 4))?;
        let treasury = read_number(word(texts, 6))?;
        Some((epoch, version, treasury))
    }

    fn push(head: &(u64, (u32, u32), u64), out: &mut Vec<u8>) -> Result<(), NoMemory> {
        push_line(
            out,
            0,
            &[
                Word::Text("certificate"),
                Word::Text("epoch"),
                Word::Number(head.0),
                Word::Text("version"),
                Word::Version(head.1.0, head.1.1),
                Word::Text("treasury"),
                Word::Number(head.2),
            ],
        )
    }
}
