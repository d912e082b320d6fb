//! Where the chain is, and how it is governed.
ghost use Rattle.std.specs.Prelude.{[], ◌∷◌, map};
ghost use Rattle.gov_model.specs.Sides.{members_of};
ghost use Rattle.state_lines.specs.StateTexts.{state_words};
ghost use Rattle.report.specs.Taking.{HasPut};
ghost use Rattle.state_print.specs.Views.{shown_of_view};
ghost use Rattle.text_model.specs.StateLines.{committee_lines, governance_lines, hot_outside, hot_words, member_among};

use crate::items::{ItemLines, put_items};
use crate::view::StateView;
use crate::walk::{Walked, put_walk};
use byte_lines::SinkFault;
use committee_book::{HotBook, is_member};
use gov_actions::{Committee, HotState};
use gov_ids::Credential;
use report::{LineTaker, put_one};
use state_lines::StateLine;

/// The members of a committee.
#[derive(Drop)]
struct CommitteeMembers<'a> {
    hot: &'a HotBook,
}

impl<'a> ItemLines for CommitteeMembers<'a> {
    ghost use Rattle.std.specs.Prelude.{[], ◌∷◌};
    ghost use Rattle.text_model.specs.StateLines.{member_among};

    type Item = (Credential, u64);

    ghost lines = { λ p m. member_among p.hot.now m ∷ [] };

    fn put_item<T: LineTaker>(
        &self,
        to: &mut T,
        text: &mut Vec<u8>,
        line: u64,
        item: &(Credential, u64),
    ) -> Result<(), SinkFault> {
        let hot = self.hot.get(&item.0);
        put_one(to, text, line, &StateLine::Member(item, &hot))
    }
}

/// The entries of the cold keys that are no members.
#[derive(Drop)]
struct OtherKeys<'a> {
    hot: &'a HotBook,
    committee: &'a Option<Committee>,
}

impl<'a> Walked for OtherKeys<'a> {
    ghost use Rattle.std.specs.Prelude.{[], ◌∷◌, if◌then◌else◌};
    ghost use Rattle.gov_ids.specs.Orders.{credential_cmp};
    ghost use Rattle.gov_model.specs.Hot.{is_member};
    ghost use Rattle.text_model.specs.StateLines.{hot_words};
    ghost use Rattle.view_map.specs.Walk.{entries_past};

    type Key = Credential;

    type Held = HotState;

    ghost past = { λ p after. entries_past credential_cmp after p.hot.now };

    ghost lines = { λ p e. if is_member p.committee.now e.0 then [] else hot_words e ∷ [] };

    fn following(&self, after: Option<&Credential>) -> Option<(Credential, HotState)> {
        self.hot.next(after)
    }

    fn put_entry<T: LineTaker>(
        &self,
        to: &mut T,
        text: &mut Vec<u8>,
        line: u64,
        entry: &(Credential, HotState),
    ) -> Result<(), SinkFault> {
        if is_member(self.committee.as_ref(), &entry.0) {
            return Ok(());
        }
        put_one(to, text, line, &StateLine::Hot(&entry.0, &entry.1))
    }
}

/// Hands over the lines of the members.
fn put_members<T: LineTaker>(
    to: &mut T,
    text: &mut Vec<u8>,
    line: u64,
    committee: &Option<Committee>,
    hot: &HotBook,
) -> Result<(), SinkFault>
    ensures { HasPut T.with_line T.IsPart line (T.taken to.old) (map (member_among hot.now) (members_of committee.now))
        (T.taken to.new) (T.faults to.old) (T.faults to.new) result }
{
    match committee {
        None => Ok(()),
        Some(committee) => {
            put_items(
                to,
                text,
                line,
                &CommitteeMembers { hot },
                committee.members.as_slice(),
            )
        }
    }
}

/// Hands over the lines of the cold keys that are no members.
fn put_other_keys<T: LineTaker>(
    to: &mut T,
    text: &mut Vec<u8>,
    line: u64,
    committee: &Option<Committee>,
    hot: &HotBook,
) -> Result<(), SinkFault>
    ensures { HasPut T.with_line T.IsPart line (T.taken to.old) (map hot_words (hot_outside committee.now hot.now))
        (T.taken to.new) (T.faults to.old) (T.faults to.new) result }
{
    put_walk(to, text, line, &OtherKeys { hot, committee })
}

/// Hands over the lines of the committee, its members and the other cold keys.
fn put_committee<T: LineTaker>(
    to: &mut T,
    text: &mut Vec<u8>,
    line: u64,
    committee: &Option<Committee>,
    hot: &HotBook,
) -> Result<(), SinkFault>
    ensures { HasPut T.with_line T.IsPart line (T.taken to.old) (committee_lines committee.now hot.now)
        (T.taken to.new) (T.faults to.old) (T.faults to.new) result }
{
    put_one(to, text, line, &StateLine::Committee(committee))?;
    put_members(to, text, line, committee, hot)?;
    put_other_keys(to, text, line, committee, hot)
}

/// Hands over the lines of where the chain is and of the constitution.
fn put_head<T: LineTaker>(
    to: &mut T,
    text: &mut Vec<u8>,
    line: u64,
    now: &StateLine<'_>,
    constitution: &StateLine<'_>,
) -> Result<(), SinkFault>
    ensures { HasPut T.with_line T.IsPart line (T.taken to.old) (state_words now.now ∷ state_words constitution.now ∷ [])
        (T.taken to.new) (T.faults to.old) (T.faults to.new) result }
{
    put_one(to, text, line, now)?;
    put_one(to, text, line, constitution)
}

/// Hands over the lines of where the chain is, how it is governed, and what was enacted last.
pub(crate) fn put_governance<T: LineTaker>(
    to: &mut T,
    text: &mut Vec<u8>,
    line: u64,
    view: &StateView<'_>,
) -> Result<(), SinkFault>
    ensures { HasPut T.with_line T.IsPart line (T.taken to.old) (governance_lines (shown_of_view view.now))
        (T.taken to.new) (T.faults to.old) (T.faults to.new) result }
{
    let state = view.state;
    let now = StateLine::Now(view.slot, view.epoch, state.version, view.dreps.dormant());
    let constitution = StateLine::Constitution(&state.document, &state.script);
    put_head(to, text, line, &now, &constitution)?;
    put_committee(to, text, line, &state.committee, view.hot)?;
    put_one(to, text, line, &StateLine::Enacted(&state.last))
}
