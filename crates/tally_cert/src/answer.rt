ghost use Rattle.std.specs.Prelude.{◌≡◌, IfOk};
ghost use Rattle.certificate_model.specs.Checked.{Answers};
ghost use Rattle.line_giver.specs.OfList.{texts_of};

use certificate_check::Certificates;
use check_loop::TextChecker;
use line_giver::ListedLines;
use no_memory::NoMemory;
use std::alloc::Global;

/// Whether these lines, each without its line feed, are the certificate of a snapshot that fits.
pub fn check(alloc: Global, lines: &[Vec<u8>]) -> Result<bool, NoMemory>
    ensures { IfOk result (Answers (texts_of lines.now)) }
{
    let mut giver = ListedLines {
        lines,
        is_seen: false,
    };
    let mut text = Vec::new(alloc);
    match Certificates::is_right(alloc, &mut giver, &mut text) {
        Ok(answer) => Ok(answer),
        Err(_) => Err(NoMemory),
    }
}
