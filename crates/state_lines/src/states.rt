//! The lines of the state, except parameters, books and proposals.
ghost use Rattle.std.specs.Prelude.{◌≡◌, ◌++◌, OnOk};
ghost use Rattle.gov_ids.specs.Spelling.{action_id_text, hash_text};
ghost use Rattle.text_model.specs.StateLines.{committee_words, hot_text, hot_words, words_of_constitution, words_of_enacted, words_of_member, words_of_now};
ghost use Rattle.text_model.specs.Words.{line_of, or_none};
ghost use Rattle.report.specs.WordTexts.{word_text};

use coin_frac::NoMemory;
use gov_actions::{Committee, HotState, LastIds};
use gov_ids::{ActionId, Credential};
use report::{Word, push_line};

/// The hot key of a cold key.
fn hot_word(hot: &Option<HotState>) -> Word<'_>
    ensures { word_text result ≡ hot_text hot.now }
{
    match hot {
        None => Word::Text("none"),
        Some(HotState::Hot(key)) => Word::Credential(key),
        Some(HotState::Resigned) => Word::Text("resigned"),
    }
}

/// An action's id, or none.
pub(crate) fn id_word(id: &Option<ActionId>) -> Word<'_>
    ensures { word_text result ≡ or_none action_id_text id.now }
{
    match id {
        None => Word::Text("none"),
        Some(id) => Word::Action(id),
    }
}

/// A script's hash, or none.
fn script_word(script: &Option<[u8; 28]>) -> Word<'_>
    ensures { word_text result ≡ or_none hash_text script.now }
{
    match script {
        None => Word::Text("none"),
        Some(script) => Word::Script(script),
    }
}

/// Appends the line of where the chain is. (Own)
/// After an out-of-memory error the buffer may hold anything.
pub fn push_now_line(
    out: &mut Vec<u8>,
    line: u64,
    slot: u64,
    epoch: u64,
    version: (u32, u32),
    dormant: u64,
) -> Result<(), NoMemory>
    ensures { OnOk result (out.new.items ≡ out.old.items ++ line_of line (words_of_now slot epoch version dormant)) }
{
    push_line(
        out,
        line,
        &[
            Word::Text("now"),
            Word::Text("slot"),
            Word::Number(slot),
            Word::Text("epoch"),
            Word::Number(epoch),
            Word::Text("version"),
            Word::Version(version.0, version.1),
            Word::Text("dormant"),
            Word::Number(dormant),
        ],
    )
}

/// Appends the line of the constitution. (Own)
/// After an out-of-memory error the buffer may hold anything.
pub fn push_constitution_line<'a>(
    out: &mut Vec<u8>,
    line: u64,
    document: &'a [u8; 32],
    script: &'a Option<[u8; 28]>,
) -> Result<(), NoMemory>
    ensures { OnOk result (out.new.items ≡ out.old.items ++ line_of line (words_of_constitution document.now script.now)) }
{
    push_line(
        out,
        line,
        &[
            Word::Text("constitution"),
            Word::Hash(document),
            script_word(script),
        ],
    )
}

/// Appends the line of the committee. (Own)
/// After an out-of-memory error the buffer may hold anything.
pub fn push_committee_line(
    out: &mut Vec<u8>,
    line: u64,
    committee: &Option<Committee>,
) -> Result<(), NoMemory>
    ensures { OnOk result (out.new.items ≡ out.old.items ++ line_of line (committee_words committee.now)) }
{
    match committee {
        None => push_line(out, line, &[Word::Text("committee"), Word::Text("none")]),
        Some(committee) => push_line(
            out,
            line,
            &[
                Word::Text("committee"),
                Word::Text("threshold"),
                Word::Fraction(committee.threshold.num(), committee.threshold.den()),
            ],
        ),
    }
}

/// Appends the line of a member, whose cold key authorized `hot`. (Own)
/// After an out-of-memory error the buffer may hold anything.
pub fn push_member_line<'a>(
    out: &mut Vec<u8>,
    line: u64,
    member: &'a (Credential, u64),
    hot: &'a Option<HotState>,
) -> Result<(), NoMemory>
    ensures { OnOk result (out.new.items ≡ out.old.items ++ line_of line (words_of_member member.now hot.now)) }
{
    push_line(
        out,
        line,
        &[
            Word::Text("member"),
            Word::Credential(&member.0),
            Word::Text("term"),
            Word::Number(member.1),
            Word::Text("hot"),
            hot_word(hot),
        ],
    )
}

/// Appends the line of what a cold key authorized that is no member's. (Own)
/// After an out-of-memory error the buffer may hold anything.
pub fn push_hot_line<'a>(
    out: &mut Vec<u8>,
    line: u64,
    cold: &'a Credential,
    hot: &'a HotState,
) -> Result<(), NoMemory>
    ensures { OnOk result (out.new.items ≡ out.old.items ++ line_of line (hot_words (cold.now, hot.now))) }
{
    let authorized = match hot {
        HotState::Hot(key) => Word::Credential(key),
        HotState::Resigned => Word::Text("resigned"),
    };
    push_line(
        out,
        line,
        &[Word::Text("hot"), Word::Credential(cold), authorized],
    )
}

/// Appends the line of the last enacted ids. (Own)
/// After an out-of-memory error the buffer may hold anything.
pub fn push_enacted_line(out: &mut Vec<u8>, line: u64, last: &LastIds) -> Result<(), NoMemory>
    ensures { OnOk result (out.new.items ≡ out.old.items ++ line_of line (words_of_enacted last.now)) }
{
    push_line(
        out,
        line,
        &[
            Word::Text("enacted"),
            Word::Text("committee"),
            id_word(&last.committee),
            Word::Text("constitution"),
            id_word(&last.constitution),
            Word::Text("hardfork"),
            id_word(&last.hardfork),
            Word::Text("parameters"),
            id_word(&last.parameters),
        ],
    )
}
