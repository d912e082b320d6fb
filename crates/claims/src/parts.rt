//! The parts of the counts of a proposal.
ghost use Rattle.std.specs.Prelude.{◌≡◌, ◌++◌, flat_map};
ghost use Rattle.claims.specs.Lines.{drep_lines, drep_part_lines, member_part_lines, part_lines, pool_part_lines, predefined_lines};
ghost use Rattle.gov_ids.specs.Orders.{voter_cmp};
ghost use Rattle.gov_model.specs.Sides.{members_of};
ghost use Rattle.maps.specs.Maps.{IsMap};
ghost use Rattle.report.specs.Taking.{HasPut};

use crate::part_line::{Named, PartLine, put_part};
use crate::sides::{active_key, no_confidence_side, silent_side, vote_of};
use byte_lines::SinkFault;
use drep_pulser::Counted;
use gov_actions::{Committee, Proposal, Vote};
use gov_ids::{Credential, Drep, Voter};
use item_lines::{ItemLines, put_items};
use report::LineTaker;
use snapshots::{Frozen, FrozenPool};

// The parts of members in the count of a proposal.
#[derive(Drop)]
struct MemberParts<'a> {
    f: &'a Frozen,
    a: &'a Proposal,
}

impl<'a> ItemLines for MemberParts<'a> {
    ghost use Rattle.claims.specs.Lines.{member_lines};
    ghost use Rattle.gov_ids.specs.Orders.{voter_cmp};
    ghost use Rattle.maps.specs.Maps.{IsMap};

    type Item = (Credential, u64);

    ghost can = { λ p. IsMap voter_cmp p.a.now.votes };

    ghost lines = { λ p m. member_lines p.f.now p.a.now m };

    fn put_item<T: LineTaker>(
        &self,
        to: &mut T,
        text: &mut Vec<u8>,
        line: u64,
        item: &(Credential, u64),
    ) -> Result<(), SinkFault> {
        match active_key(self.f, item) {
            None => Ok(()),
            Some(key) => {
                let part = PartLine {
                    id: &self.a.id,
                    voter: Named::Member(&item.0),
                    weight: 1,
                    side: vote_of(self.a, &Voter::Committee(key)).unwrap_or(Vote::No),
                };
                put_part(to, text, line, &part)
            }
        }
    }
}

// The parts of registered DReps in the count of a proposal.
#[derive(Drop)]
struct DrepParts<'a> {
    epoch: u64,
    c: &'a Counted,
    a: &'a Proposal,
}

impl<'a> ItemLines for DrepParts<'a> {
    ghost use Rattle.claims.specs.Lines.{drep_lines};
    ghost use Rattle.gov_ids.specs.Orders.{voter_cmp};
    ghost use Rattle.maps.specs.Maps.{IsMap};

    type Item = (Credential, u64);

    ghost can = { λ p. IsMap voter_cmp p.a.now.votes };

    ghost lines = { λ p d. drep_lines p.epoch p.c.now p.a.now d };

    fn put_item<T: LineTaker>(
        &self,
        to: &mut T,
        text: &mut Vec<u8>,
        line: u64,
        item: &(Credential, u64),
    ) -> Result<(), SinkFault> {
        if item.1 < self.epoch {
            return Ok(());
        }
        let vote = vote_of(self.a, &Voter::Drep(item.0));
        let drep = Drep::Registered(item.0);
        put_drep(
            to,
            text,
            line,
            self.c,
            self.a,
            &drep,
            vote.unwrap_or(Vote::No),
        )
    }
}

// The parts of pools in the count of a proposal.
#[derive(Drop)]
struct PoolParts<'a> {
    a: &'a Proposal,
}

impl<'a> ItemLines for PoolParts<'a> {
    ghost use Rattle.claims.specs.Lines.{pool_lines};
    ghost use Rattle.gov_ids.specs.Orders.{voter_cmp};
    ghost use Rattle.maps.specs.Maps.{IsMap};

    type Item = FrozenPool;

    ghost can = { λ p. IsMap voter_cmp p.a.now.votes };

    ghost lines = { λ p pool. pool_lines p.a.now pool };

    fn put_item<T: LineTaker>(
        &self,
        to: &mut T,
        text: &mut Vec<u8>,
        line: u64,
        item: &FrozenPool,
    ) -> Result<(), SinkFault> {
        let silent = silent_side(item.default_vote, &self.a.action);
        let part = PartLine {
            id: &self.a.id,
            voter: Named::Pool(&item.pool),
            weight: item.stake,
            side: vote_of(self.a, &Voter::Pool(item.pool)).unwrap_or(silent),
        };
        put_part(to, text, line, &part)
    }
}

// Hands over the part of a DRep on a side, by its counted stake.
fn put_drep<T: LineTaker>(
    to: &mut T,
    text: &mut Vec<u8>,
    line: u64,
    c: &Counted,
    a: &Proposal,
    drep: &Drep,
    side: Vote,
) -> Result<(), SinkFault>
    ensures { HasPut T.with_line T.IsPart line (T.taken to.old) (drep_part_lines c.now a.now drep.now side)
        (T.taken to.new) (T.faults to.old) (T.faults to.new) result }
{
    let part = PartLine {
        id: &a.id,
        voter: Named::Drep(drep),
        weight: c.stake(drep),
        side,
    };
    put_part(to, text, line, &part)
}

// Hands over the parts of the two predefined DReps.
fn put_predefined<T: LineTaker>(
    to: &mut T,
    text: &mut Vec<u8>,
    line: u64,
    c: &Counted,
    a: &Proposal,
) -> Result<(), SinkFault>
    ensures { HasPut T.with_line T.IsPart line (T.taken to.old) (predefined_lines c.now a.now)
        (T.taken to.new) (T.faults to.old) (T.faults to.new) result }
{
    put_drep(to, text, line, c, a, &Drep::Abstain, Vote::Abstain)?;
    let side = no_confidence_side(&a.action);
    put_drep(to, text, line, c, a, &Drep::NoConfidence, side)
}

// Hands over the parts of the registered DReps, then of the predefined ones.
fn put_dreps<T: LineTaker>(
    to: &mut T,
    text: &mut Vec<u8>,
    line: u64,
    f: &Frozen,
    c: &Counted,
    a: &Proposal,
) -> Result<(), SinkFault>
    requires { IsMap voter_cmp a.now.votes }
    ensures { HasPut T.with_line T.IsPart line (T.taken to.old)
        (flat_map (drep_lines f.now.epoch c.now a.now) f.now.dreps ++ predefined_lines c.now a.now)
        (T.taken to.new) (T.faults to.old) (T.faults to.new) result }
{
    let printer = DrepParts {
        epoch: f.epoch,
        c,
        a,
    };
    put_items(to, text, line, &printer, f.dreps.as_slice())?;
    put_predefined(to, text, line, c, a)
}

// The members of a committee, none where there is no committee.
fn members_of(committee: &Option<Committee>) -> &[(Credential, u64)]
    ensures { result.now ≡ members_of committee.now }
{
    match committee {
        Some(committee) => committee.members.as_slice(),
        None => &[],
    }
}

// Hands over the parts of the active members.
fn put_members<T: LineTaker>(
    to: &mut T,
    text: &mut Vec<u8>,
    line: u64,
    f: &Frozen,
    a: &Proposal,
) -> Result<(), SinkFault>
    requires { IsMap voter_cmp a.now.votes }
    ensures { HasPut T.with_line T.IsPart line (T.taken to.old) (member_part_lines f.now a.now)
        (T.taken to.new) (T.faults to.old) (T.faults to.new) result }
{
    let members = members_of(&f.start.committee);
    put_items(to, text, line, &MemberParts { f, a }, members)
}

// Hands over the parts of the pools of mark.
fn put_pools<T: LineTaker>(
    to: &mut T,
    text: &mut Vec<u8>,
    line: u64,
    f: &Frozen,
    a: &Proposal,
) -> Result<(), SinkFault>
    requires { IsMap voter_cmp a.now.votes }
    ensures { HasPut T.with_line T.IsPart line (T.taken to.old) (pool_part_lines f.now a.now)
        (T.taken to.new) (T.faults to.old) (T.faults to.new) result }
{
    put_items(to, text, line, &PoolParts { a }, f.pools.as_slice())
}

// Hands over the parts with a weight above 0, role after role.
pub(crate) fn put_parts<T: LineTaker>(
    to: &mut T,
    text: &mut Vec<u8>,
    line: u64,
    f: &Frozen,
    c: &Counted,
    a: &Proposal,
) -> Result<(), SinkFault>
    requires { IsMap voter_cmp a.now.votes }
    ensures { HasPut T.with_line T.IsPart line (T.taken to.old) (part_lines f.now c.now a.now)
        (T.taken to.new) (T.faults to.old) (T.faults to.new) result }
{
    put_members(to, text, line, f, a)?;
    put_dreps(to, text, line, f, c, a)?;
    put_pools(to, text, line, f, a)
}
