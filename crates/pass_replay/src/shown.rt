//! What is printed of a snapshot and of the pass over it.
use crate::numbers::key;
use coin_frac::Unit;
use drep_pulser::Counted;
use gov_actions::{EnactState, Need, Proposal, Role, Tally};
use gov_ids::{ActionId, Drep};
use listed::Listed;
use ratify::Outcome;
use snapshots::Frozen;
use std::io;
use tally::{TallyCell, need};

fn show_id(rt: &impl Print, id: ActionId) -> io::Result<()> {
    let byte = id.tx.0[0];
    print!(rt; " {byte}#{}", id.index)
}

fn show_part(rt: &impl Print, (yes, total): (u64, u64), need: Need) -> io::Result<()> {
    match need {
        Need::Nothing => print!(rt; " {yes}/{total} none"),
        Need::Never => print!(rt; " {yes}/{total} never"),
        Need::Share(share) => print!(rt; " {yes}/{total} {}/{}", share.num(), share.den()),
    }
}

// Counts and needs by role.
fn show_parts(rt: &impl Print, counts: &[(u64, u64); 3], needs: &[Need; 3]) -> io::Result<()> {
    for i in 0..3 {
        show_part(rt, counts[i], needs[i])?;
    }
    Ok(())
}

fn needs(f: &Frozen, a: &Proposal) -> [Need; 3] {
    [
        need(f, &f.start, &a.action, Role::Committee),
        need(f, &f.start, &a.action, Role::Drep),
        need(f, &f.start, &a.action, Role::Pool),
    ]
}

// The number of counted accounts, the two predefined stakes, and the stakes of ten credentials.
pub(crate) fn show_stakes(rt: &impl Print, c: &Counted) -> io::Result<()> {
    let (abstain, no_confidence) = (c.stake(&Drep::Abstain), c.stake(&Drep::NoConfidence));
    print!(rt; "stakes {} {abstain} {no_confidence}", c.total())?;
    for byte in 30..40 {
        let stake = c.stake(&Drep::Registered(key(byte)));
        print!(rt; " {stake}")?;
    }
    println!(rt; "")
}

// Each proposal as it counts, and what it needs by the state from which the pass starts.
pub(crate) fn show_counts(rt: &impl Print, f: &Frozen, cells: &[TallyCell]) -> io::Result<()> {
    for (a, cell) in f.proposals.as_slice().iter().zip(cells) {
        let counts = [cell.committee, cell.drep, cell.pool];
        print!(rt; "counts")?;
        show_id(rt, a.id)?;
        show_parts(rt, &counts, &needs(f, a))?;
        println!(rt; "")?;
    }
    Ok(())
}

fn show_tally(rt: &impl Print, t: &Tally) -> io::Result<()> {
    let (id, kind, verdict) = (t.id, t.kind, t.verdict);
    print!(rt; "tally")?;
    show_id(rt, id)?;
    print!(rt; " {kind:?}")?;
    show_parts(rt, &t.counts, &t.needs)?;
    println!(rt; " {verdict:?}")
}

fn show_ids(rt: &impl Print, word: &str, ids: &Listed<ActionId>) -> io::Result<()> {
    print!(rt; "{word}")?;
    for id in ids.as_slice() {
        show_id(rt, *id)?;
    }
    println!(rt; "")
}

fn show_last(rt: &impl Print, word: &str, id: Option<ActionId>) -> io::Result<()> {
    match id {
        Some(id) => {
            print!(rt; " {word}")?;
            show_id(rt, id)
        }
        None => Ok(()),
    }
}

fn show_committee(rt: &impl Print, s: &EnactState) -> io::Result<()> {
    let Some(committee) = &s.committee else {
        return println!(rt; "no committee");
    };
    show_threshold(rt, "committee", committee.threshold)?;
    for (cold, term) in committee.members.as_slice() {
        print!(rt; " {}:{term}", cold.hash[0])?;
    }
    println!(rt; "")
}

fn show_threshold(rt: &impl Print, word: &str, share: Unit) -> io::Result<()> {
    print!(rt; "{word} {}/{}", share.num(), share.den())
}

fn show_enacted(rt: &impl Print, s: &EnactState) -> io::Result<()> {
    let (major, minor) = s.version;
    let script = s.script.map_or(0, |script| script[0]);
    print!(rt;
        "state {} {major}.{minor} {} {script}",
        s.treasury, s.document[0]
    )?;
    show_last(rt, "committee", s.last.committee)?;
    show_last(rt, "constitution", s.last.constitution)?;
    show_last(rt, "hardfork", s.last.hardfork)?;
    show_last(rt, "parameters", s.last.parameters)?;
    println!(rt; "")
}

fn show_params(rt: &impl Print, s: &EnactState) -> io::Result<()> {
    let p = &s.params;
    let amounts = [
        u64::from(p.max_tx_size),
        u64::from(p.max_collateral_inputs),
        p.key_deposit,
        p.min_fee_a,
        u64::from(p.n_opt),
        u64::from(p.committee_min_size),
        u64::from(p.committee_max_term_length),
        p.gov_action_deposit,
    ];
    print!(rt; "parameters")?;
    for amount in amounts {
        print!(rt; " {amount}")?;
    }
    for share in p.drep_voting_thresholds {
        show_threshold(rt, "", share)?;
    }
    for share in p.pool_voting_thresholds {
        show_threshold(rt, "", share)?;
    }
    println!(rt; "")
}

pub(crate) fn show_outcome(rt: &impl Print, o: &Outcome) -> io::Result<()> {
    for t in o.tallies.as_slice() {
        show_tally(rt, t)?;
    }
    show_ids(rt, "ratified", &o.ratified)?;
    show_ids(rt, "expired", &o.expired)?;
    show_committee(rt, &o.state)?;
    show_enacted(rt, &o.state)?;
    show_params(rt, &o.state)
}
