ghost use Rattle.certificate_model.specs.Laws.{PartsAreTheCounts, ReachedIsCertified, VerdictsAreOfOneList};
ghost use Rattle.checkpoint_model.specs.Laws.{ReachedEntriesCount, ReachedIsResumable, ReachedIsTimed, ReachedWereProposed, ReplayIsResumed, ResumableIsSound, ShortByForm};
ghost use Rattle.follow_model.specs.Laws.{CountNeverFalls, FollowIsReplay, FollowedIsSound, KeptAreAccepted, RollbackStaysInEpoch};

/// The run of two streams is the run of the first, then a resume over the second.
/// This holds in mid-pulse too.
pub fn replay_is_resumed()
    ensures { ReplayIsResumed }
{}

/// Every ledger that records reach has the epoch of its slot, as a checkpoint must.
pub fn reached_is_timed()
    ensures { ReachedIsTimed }
{}

/// Each frozen entry of a ledger that records reach is registered or has output stake, as a
/// checkpoint must.
pub fn reached_entries_count()
    ensures { ReachedEntriesCount }
{}

/// A checkpoint can be resumed from every ledger that records reach, if it has the form of the
/// formats, its count fits in 64 bits, and no line of an action is longer than 2^24 bytes.
pub fn reached_is_resumable()
    ensures { ReachedIsResumable }
{}

/// No line of a checkpoint is longer than 2^24 bytes, if the ledger has the form of formats, its
/// clock and supply are right, its count fits in 64 bits, and no line of an action is longer.
pub fn short_by_form()
    ensures { ShortByForm }
{}

/// Any test that each proposal of the records passes, each live proposal passes.
/// So no live action is longer than one that was read.
pub fn reached_were_proposed()
    ensures { ReachedWereProposed }
{}

/// What can be resumed is sound, so that a ledger can be made of it.
pub fn resumable_is_sound()
    ensures { ResumableIsSound }
{}

/// A certificate's parts of a role add up to the role's counts. (CIP-1694, Ratification)
/// They are the weights on Yes, and those that are not on Abstain.
pub fn parts_are_the_counts()
    ensures { PartsAreTheCounts }
{}

/// The verdicts of a snapshot that may have a certificate are those of the one list that its pass
/// ratifies. (CIP-1694, Ratification)
pub fn verdicts_are_of_one_list()
    ensures { VerdictsAreOfOneList }
{}

/// A checker answers yes to the certificate of what a ledger that records reach has frozen, if that
/// has the form of the formats and no line is too long.
pub fn reached_is_certified()
    ensures { ReachedIsCertified }
{}

/// A followed stream without rollbacks is a replay: same replies, same ledger with its count.
pub fn follow_is_replay()
    ensures { FollowIsReplay }
{}

/// The records that remain after rollbacks break no rule at their places.
/// So the ledger is that of a replay of them, except for the count.
pub fn kept_are_accepted()
    ensures { KeptAreAccepted }
{}

/// The ledger of a followed stream is sound after each record.
pub fn followed_is_sound()
    ensures { FollowedIsSound }
{}

/// Within an epoch no record of a followed stream changes what is frozen or lowers the count.
/// A rollback does neither.
pub fn count_never_falls()
    ensures { CountNeverFalls }
{}

/// No rollback leaves the epoch: no boundary is taken back.
pub fn rollback_stays_in_epoch()
    ensures { RollbackStaysInEpoch }
{}
