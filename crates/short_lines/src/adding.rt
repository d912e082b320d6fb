ghost use Rattle.std.specs.Prelude.{◌≡◌, [], ◌∷◌, map};
ghost use Rattle.report.specs.Taking.{HasPut};
ghost use Rattle.report.specs.WordTexts.{word_text};
ghost use Rattle.shortfall_model.specs.ShortLines.{add_words};

use byte_lines::SinkFault;
use gov_ids::Credential;
use report::{LineTaker, Word, push_line};

// Hands over a line of these words, made in the buffer.
pub(crate) fn put_words<T: LineTaker>(
    to: &mut T,
    text: &mut Vec<u8>,
    line: u64,
    words: &[Word<'_>],
) -> Result<(), SinkFault>
    ensures { HasPut T.with_line T.IsPart line (T.taken to.old) (map word_text words.now ∷ []) (T.taken to.new)
        (T.faults to.old) (T.faults to.new) result }
{
    text.clear();
    push_line(text, line, words)?;
    to.take(text.as_slice())
}

// Hands over a line of each DRep that is to vote Yes.
pub(crate) fn put_added<T: LineTaker>(
    to: &mut T,
    text: &mut Vec<u8>,
    line: u64,
    dreps: &[(Credential, u64)],
) -> Result<(), SinkFault>
    ensures { HasPut T.with_line T.IsPart line (T.taken to.old) (map add_words dreps.now) (T.taken to.new)
        (T.faults to.old) (T.faults to.new) result }
{
    for drep in dreps {
        put_drep(to, text, line, drep)?;
    }
    Ok(())
}

// Hands over the line of one of them.
fn put_drep<T: LineTaker>(
    to: &mut T,
    text: &mut Vec<u8>,
    line: u64,
    drep: &(Credential, u64),
) -> Result<(), SinkFault>
    ensures { HasPut T.with_line T.IsPart line (T.taken to.old) (add_words drep.now ∷ []) (T.taken to.new)
        (T.faults to.old) (T.faults to.new) result }
{
    let words = [
        Word::Text("add"),
        Word::Credential(&drep.0),
        Word::Number(drep.1),
    ];
    put_words(to, text, line, &words)
}
