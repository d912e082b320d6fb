//! The constitution, the committee, its members, and the last enacted ids.
ghost use Rattle.std.specs.Prelude.{◌≡◌};
ghost use Rattle.gov_ids.specs.Spelling.{action_id_of};
ghost use Rattle.book_kinds.specs.Words.{or_none_of};
ghost use Rattle.state_kinds.specs.States.{hot_or_none_of, script_of, term_of};

use book_kinds::of_state_lines::{push_constitution_line, push_enacted_line, push_member_line};
use book_kinds::{read_hot_state, read_unit};
use coin_frac::Unit;
use gov_actions::{HotState, LastIds};
use gov_ids::{ActionId, Credential, hash28, hash32, read_action_id, read_credential};
use line_kinds::{LineKind, read_number, word};
use no_memory::NoMemory;
use report::{Word, push_line};
use tx_records::limits::SLOT_LIMIT;

/// Reads a term.
fn read_term(text: &str) -> Option<u64>
    ensures { result ≡ term_of text.now }
{
    let term = read_number(text)?;
    if term < SLOT_LIMIT { Some(term) } else { None }
}

/// Reads what a cold key authorized, or `none`.
fn read_hot_or_none(text: &str) -> Option<Option<HotState>>
    ensures { result ≡ hot_or_none_of text.now }
{
    match text {
        "none" => Some(None),
        _ => Some(Some(read_hot_state(text)?)),
    }
}

/// The lines of members, each with what its cold key authorized. (Own)
pub struct MemberLines;

impl LineKind for MemberLines {
    type Item = ((Credential, u64), Option<HotState>);

    ghost use Rattle.state_kinds.specs.States.{is_member_line, member_in, member_line};

    ghost words = { member_line };

    ghost form = { is_member_line };

    ghost reading = { member_in };

    fn laws() {}

    fn read(texts: &[&str]) -> Option<((Credential, u64), Option<HotState>)> {
        let cold = read_credential(word(texts, 1))?;
        let term = read_term(word(texts, 3))?;
        let hot = read_hot_or_none(word(texts, 5))?;
        Some(((cold, term), hot))
    }

    fn push(
        member: &((Credential, u64), Option<HotState>),
        out: &mut Vec<u8>,
    ) -> Result<(), NoMemory> {
        push_member_line(out, 0, &member.0, &member.1)
    }
}

/// Reads a script, or `none`.
fn read_script(text: &str) -> Option<Option<[u8; 28]>>
    ensures { result ≡ script_of text.now }
{
    match text {
        "none" => Some(None),
        _ => Some(Some(hash28(text).ok()?)),
    }
}

/// The line of the constitution: document and script. (Own)
pub struct ConstitutionLines;

impl LineKind for ConstitutionLines {
    type Item = ([u8; 32], Option<[u8; 28]>);

    ghost use Rattle.state_kinds.specs.States.{constitution_in, constitution_line, is_constitution_line};

    ghost words = { constitution_line };

    ghost form = { is_constitution_line };

    ghost reading = { constitution_in };

    fn laws() {}

    fn read(texts: &[&str]) -> Option<([u8; 32], Option<[u8; 28]>)> {
        let document = hash32(word(texts, 1)).ok()?;
        let script = read_script(word(texts, 2))?;
        Some((document, script))
    }

    fn push(
        constitution: &([u8; 32], Option<[u8; 28]>),
        out: &mut Vec<u8>,
    ) -> Result<(), NoMemory> {
        push_constitution_line(out, 0, &constitution.0, &constitution.1)
    }
}

/// The line of the committee: its threshold, or that there is none. (Own)
pub struct CommitteeLines;

impl LineKind for CommitteeLines {
    type Item = Option<Unit>;

    ghost use Rattle.maps.specs.Words.{none_or};
    ghost use Rattle.text_forms.specs.Ids.{is_unit};
    ghost use Rattle.state_kinds.specs.States.{committee_in, committee_line};

    ghost words = { committee_line };

    ghost form = { none_or is_unit };

    ghost reading = { committee_in };

    fn laws() {}

    fn read(texts: &[&str]) -> Option<Option<Unit>> {
        match word(texts, 1) {
            "none" => Some(None),
            _ => Some(Some(read_unit(word(texts, 2))?)),
        }
    }

    fn push(threshold: &Option<Unit>, out: &mut Vec<u8>) -> Result<(), NoMemory> {
        match threshold {
            None => push_line(out, 0, &[Word::Text("committee"), Word::Text("none")]),
            Some(threshold) => push_line(
                out,
                0,
                &[
                    Word::Text("committee"),
                    Word::Text("threshold"),
                    Word::Fraction(threshold.num(), threshold.den()),
                ],
            ),
        }
    }
}

/// Reads the id of an action, or `none`.
pub(crate) fn read_id_or_none(text: &str) -> Option<Option<ActionId>>
    ensures { result ≡ or_none_of action_id_of text.now }
{
    match text {
        "none" => Some(None),
        _ => Some(Some(read_action_id(text)?)),
    }
}

/// The line of the last enacted ids. (Own)
pub struct EnactedLines;

impl LineKind for EnactedLines {
    type Item = LastIds;

    ghost use Rattle.text_forms.specs.States.{are_last_ids};
    ghost use Rattle.text_model.specs.StateLines.{words_of_enacted};
    ghost use Rattle.state_kinds.specs.States.{enacted_in};

    ghost words = { words_of_enacted };

    ghost form = { are_last_ids };

    ghost reading = { enacted_in };

    fn laws() {}

    fn read(texts: &[&str]) -> Option<LastIds> {
        let committee = read_id_or_none(word(texts, 2))?;
        let constitution = read_id_or_none(word(texts, 4))?;
        let hardfork = read_id_or_none(word(texts, 6))?;
        let parameters = read_id_or_none(word(texts, 8))?;
        Some(LastIds {
            committee,
            constitution,
            hardfork,
            parameters,
        })
    }

    fn push(last: &LastIds, out: &mut Vec<u8>) -> Result<(), NoMemory> {
        push_enacted_line(out, 0, last)
    }
}
