ghost use Rattle.freeze.specs.Laws.{PaidAreDeposits, DelegatingAreStaked, DelegationsAreDefaults, PoolsAreFrozen};

/// What `frozen_pools` makes of the books is the frozen pools of these books' snapshot.
pub fn pools_are_frozen()
    ensures { PoolsAreFrozen }
{}

/// What this crate's clauses say of proposals, entries and reward accounts holds of their snapshot:
/// what is paid to a credential, who delegates to a pool, and a pool's default vote.
pub fn words_are_of_snapshots()
    ensures paid { PaidAreDeposits }
    ensures delegating { DelegatingAreStaked }
    ensures defaults { DelegationsAreDefaults }
{}
