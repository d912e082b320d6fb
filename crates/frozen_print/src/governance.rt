//! The epoch, and how it is governed.
ghost use Rattle.std.specs.Prelude.{[], ◌∷◌, map};
ghost use Rattle.frozen_print.specs.Words.{governance_lines, words_of_epoch};
ghost use Rattle.gov_model.specs.Sides.{members_of};
ghost use Rattle.report.specs.Taking.{HasPut};
ghost use Rattle.text_model.specs.StateLines.{committee_lines, hot_outside, hot_words, member_among, words_of_constitution};

use crate::line::FrozenLine;
use byte_lines::SinkFault;
use committee_book::is_member;
use gov_actions::{Committee, HotState};
use gov_ids::Credential;
use item_lines::{ItemLines, put_items};
use report::{LineTaker, put_one};
use snapshots::{Frozen, HotList};
use state_lines::StateLine;

// The members of a committee.
#[derive(Drop)]
struct Members<'a> {
    hot: &'a HotList,
}

impl<'a> ItemLines for Members<'a> {
    ghost use Rattle.std.specs.Prelude.{⊤, [], ◌∷◌};
    ghost use Rattle.text_model.specs.StateLines.{member_among};

    type Item = (Credential, u64);

    ghost can = { λ _. ⊤ };

    ghost lines = { λ p m. member_among p.hot.now m ∷ [] };

    fn put_item<T: LineTaker>(
        &self,
        to: &mut T,
        text: &mut Vec<u8>,
        line: u64,
        item: &(Credential, u64),
    ) -> Result<(), SinkFault> {
        let hot = self.hot.get(&item.0);
        put_one(to, text, line, &StateLine::Member(item, &hot))
    }
}

// The entries of the cold keys that are no members.
#[derive(Drop)]
struct OtherKeys<'a> {
    committee: &'a Option<Committee>,
}

impl<'a> ItemLines for OtherKeys<'a> {
    ghost use Rattle.std.specs.Prelude.{⊤, [], ◌∷◌, if◌then◌else◌};
    ghost use Rattle.gov_model.specs.Hot.{is_member};
    ghost use Rattle.text_model.specs.StateLines.{hot_words};

    type Item = (Credential, HotState);

    ghost can = { λ _. ⊤ };

    ghost lines = { λ p e. if is_member p.committee.now e.0 then [] else hot_words e ∷ [] };

    fn put_item<T: LineTaker>(
        &self,
        to: &mut T,
        text: &mut Vec<u8>,
        line: u64,
        item: &(Credential, HotState),
    ) -> Result<(), SinkFault> {
        if is_member(self.committee.as_ref(), &item.0) {
            return Ok(());
        }
        put_one(to, text, line, &StateLine::Hot(&item.0, &item.1))
    }
}

// Hands over the lines of the members.
fn put_members<T: LineTaker>(
    to: &mut T,
    text: &mut Vec<u8>,
    line: u64,
    committee: &Option<Committee>,
    hot: &HotList,
) -> Result<(), SinkFault>
    ensures { HasPut T.with_line T.IsPart line (T.taken to.old) (map (member_among hot.now) (members_of committee.now))
        (T.taken to.new) (T.faults to.old) (T.faults to.new) result }
{
    match committee {
        None => Ok(()),
        Some(committee) => {
            let members = committee.members.as_slice();
            put_items(to, text, line, &Members { hot }, members)
        }
    }
}

// Hands over the lines of the cold keys that are no members.
fn put_other_keys<T: LineTaker>(
    to: &mut T,
    text: &mut Vec<u8>,
    line: u64,
    committee: &Option<Committee>,
    hot: &HotList,
) -> Result<(), SinkFault>
    ensures { HasPut T.with_line T.IsPart line (T.taken to.old) (map hot_words (hot_outside committee.now hot.now))
        (T.taken to.new) (T.faults to.old) (T.faults to.new) result }
{
    put_items(to, text, line, &OtherKeys { committee }, hot.as_slice())
}

// Hands over the lines of the committee, its members and the other cold keys.
fn put_committee<T: LineTaker>(
    to: &mut T,
    text: &mut Vec<u8>,
    line: u64,
    committee: &Option<Committee>,
    hot: &HotList,
) -> Result<(), SinkFault>
    ensures { HasPut T.with_line T.IsPart line (T.taken to.old) (committee_lines committee.now hot.now)
        (T.taken to.new) (T.faults to.old) (T.faults to.new) result }
{
    put_one(to, text, line, &StateLine::Committee(committee))?;
    put_members(to, text, line, committee, hot)?;
    put_other_keys(to, text, line, committee, hot)
}

// Hands over the lines of the epoch and of the constitution.
fn put_head<T: LineTaker>(
    to: &mut T,
    text: &mut Vec<u8>,
    line: u64,
    f: &Frozen,
) -> Result<(), SinkFault>
    ensures { HasPut T.with_line T.IsPart line (T.taken to.old)
        (words_of_epoch f.now.epoch f.now.start.version f.now.start.treasury
        ∷ words_of_constitution f.now.start.document f.now.start.script ∷ [])
        (T.taken to.new) (T.faults to.old) (T.faults to.new) result }
{
    let start = &f.start;
    let epoch = FrozenLine::Epoch(f.epoch, start.version, start.treasury);
    put_one(to, text, line, &epoch)?;
    let constitution = StateLine::Constitution(&start.document, &start.script);
    put_one(to, text, line, &constitution)
}

// Hands over the lines of the epoch, and of how it is governed.
pub(crate) fn put_governance<T: LineTaker>(
    to: &mut T,
    text: &mut Vec<u8>,
    line: u64,
    f: &Frozen,
) -> Result<(), SinkFault>
    ensures { HasPut T.with_line T.IsPart line (T.taken to.old) (governance_lines f.now) (T.taken to.new)
        (T.faults to.old) (T.faults to.new) result }
{
    put_head(to, text, line, f)?;
    put_committee(to, text, line, &f.start.committee, &f.hot)?;
    put_one(to, text, line, &StateLine::Enacted(&f.start.last))
}
