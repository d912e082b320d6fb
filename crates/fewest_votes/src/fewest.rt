ghost use Rattle.std.specs.Prelude.{◌≡◌, IfOk};
ghost use Rattle.gov_ids.specs.Orders.{voter_cmp};
ghost use Rattle.maps.specs.Maps.{IsMap};
ghost use Rattle.shortfall_model.specs.Laws.{IsRight};
ghost use Rattle.shortfall_model.specs.Silent.{short_of};
ghost use Rattle.tally.specs.Counted.{CanBeCounted, ForSnapshot};

use crate::ranking::Ranking;
use drep_pulser::Counted;
use gov_actions::Proposal;
use no_memory::NoMemory;
use shortfall_laws::least_is_least;
use shortfall_model::Short;
use snapshots::Frozen;
use std::alloc::Global;
use tally::drep_count;

/// The fewest silent DReps whose Yes reaches the DReps' need, if nothing is enacted before: the
/// greatest stakes first, equal ones by credential. For many proposals make one `Ranking`.
/// (Own; the stakes, counts and needs are those of CIP-1694, Ratification)
pub fn least(alloc: Global, f: &Frozen, c: &Counted, a: &Proposal) -> Result<Short, NoMemory>
    requires counted { CanBeCounted f.now c.now }
    requires voters { IsMap voter_cmp a.now.votes }
    ensures short { IfOk result (λ x. ForSnapshot f.now c.now (λ s. x ≡ short_of s a.now)) }
    ensures fewest { IfOk result (λ x. ForSnapshot f.now c.now (λ s. IsRight s a.now x)) }
{
    least_is_least();
    let count = drep_count(f, c, a);
    let ranking = Ranking::of(alloc, f, c)?;
    ranking.shortfall(alloc, f, count, a)
}
