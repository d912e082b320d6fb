ghost use Rattle.std.specs.Prelude.{◌≡◌, IfOk};
ghost use Rattle.std.specs.List.{find};
ghost use Rattle.gov_ids.specs.Orders.{voter_cmp};
ghost use Rattle.gov_model.specs.Thresholds.{zero_share};
ghost use Rattle.maps.specs.Maps.{IsMap};
ghost use Rattle.fewest_votes.specs.Ranked.{short_by_front, short_in, silent_among};

use crate::silent::is_silent;
use coin_frac::{Unit, reaches};
use gov_actions::{Need, Proposal};
use gov_ids::Credential;
use listed::Listed;
use no_memory::NoMemory;
use shortfall_model::Short;
use std::alloc::Global;

// What a proposal lacks of a need, with the DReps in the order of the ranking.
pub(crate) fn short_in(
    alloc: Global,
    need: Need,
    count: (u64, u64),
    dreps: &[(Credential, u64)],
    a: &Proposal,
) -> Result<Short, NoMemory>
    requires { IsMap voter_cmp a.now.votes }
    ensures { IfOk result (λ x. x ≡ short_in need count (silent_among a.now dreps.now)) }
{
    match need {
        Need::Never => Ok(Short::Never),
        Need::Nothing => short_by(alloc, zero_share(), count.0, count.1, dreps, a),
        Need::Share(t) => short_by(alloc, t, count.0, count.1, dreps, a),
    }
}

// What it lacks of a threshold: takes silent DReps until their Yes reaches it.
fn short_by(
    alloc: Global,
    need: Unit,
    yes: u64,
    total: u64,
    dreps: &[(Credential, u64)],
    a: &Proposal,
) -> Result<Short, NoMemory>
    requires { IsMap voter_cmp a.now.votes }
    ensures { IfOk result (λ x. x ≡ short_by_front need (yes, total) (silent_among a.now dreps.now)) }
{
    // a need is a share of at most 1
    let _den = need.den();
    let mut chosen = Listed::new(alloc);
    let mut ayes = yes;
    if reaches(ayes, total, need) {
        return Ok(Short::Least {
            chosen,
            yes,
            total,
            need,
            short: yes,
        });
    }
    for drep in dreps {
        if is_silent(a, &drep.0) {
            let short = ayes;
            chosen.push(*drep)?;
            // a sum past 64 bits is past the total, and reaches as well
            ayes = ayes.saturating_add(drep.1);
            if reaches(ayes, total, need) {
                return Ok(Short::Least {
                    chosen,
                    yes,
                    total,
                    need,
                    short,
                });
            }
        }
    }
    Ok(Short::None { yes, total, need })
}

// 0/1, which is always reached.
fn zero_share() -> Unit
    ensures { result ≡ zero_share }
{
    Unit::new(0, 1).unwrap()
}
