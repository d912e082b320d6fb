//! What the type of an action decides: the order of a pass, and who may vote.
use gov_actions::{Action, may_vote};
use gov_ids::{CredKind, Credential, PoolId, Voter};

#[test]
fn tells_what_an_action_is(rt: HostRuntime) {
    let fork = Action::HardForkInitiation {
        previous: None,
        version: (10, 0),
    };
    let cred = Credential {
        hash: [2; 28],
        kind: CredKind::Key,
    };
    let voters = [
        Voter::Committee(cred),
        Voter::Drep(cred),
        Voter::Pool(PoolId([3; 28])),
    ];
    for (action, priority, delaying, votes) in &[
        (
            Action::NoConfidence { previous: None },
            0,
            true,
            [false, true, true],
        ),
        (fork, 3, true, [true, true, true]),
        (Action::Info, 6, false, [true, true, true]),
    ] {
        assert!(rt; action.priority() == *priority && action.delaying() == *delaying);
        for (voter, may) in voters.iter().zip(votes) {
            assert!(rt; may_vote(voter, action) == *may);
        }
    }
}
