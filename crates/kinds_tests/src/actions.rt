//! Lines of actions, and other spellings of them.
use crate::kinds::count;
use action_kinds::ActionLines;

#[test]
fn reads_each_action(rt: HostRuntime) {
    let counts = [
        count::<ActionLines>(
            &rt,
            b"action 0000000000000000000000000000000000000000000000000000000000000002#0 {\"type\":\"Info\"}\nend\n",
        ),
        count::<ActionLines>(
            &rt,
            b"action 0000000000000000000000000000000000000000000000000000000000000002#7 {\"type\":\"NoConfidence\",\"previous\":\"0000000000000000000000000000000000000000000000000000000000000001#1\"}\n",
        ),
        count::<ActionLines>(
            &rt,
            b"action 0000000000000000000000000000000000000000000000000000000000000002#0 {\"type\":\"UpdateCommittee\",\"remove\":[\"k00000000000000000000000000000000000000000000000000000070\"],\"add\":[[\"s00000000000000000000000000000000000000000000000000000071\",9]],\"threshold\":[1,2]}\n",
        ),
        count::<ActionLines>(
            &rt,
            b"action 0000000000000000000000000000000000000000000000000000000000000002#0 {\"type\":\"NewConstitution\",\"document\":\"0000000000000000000000000000000000000000000000000000000000000003\"}\n",
        ),
        count::<ActionLines>(
            &rt,
            b"action 0000000000000000000000000000000000000000000000000000000000000002#0 {\"type\":\"HardForkInitiation\",\"version\":[10,1]}\n",
        ),
        count::<ActionLines>(
            &rt,
            b"action 0000000000000000000000000000000000000000000000000000000000000002#0 {\"type\":\"ParameterChange\",\"update\":{\"maxTxSize\":5,\"rho\":[1,3],\"prices\":[[1,2],[3,4]]}}\n",
        ),
        count::<ActionLines>(
            &rt,
            b"action 0000000000000000000000000000000000000000000000000000000000000002#0 {\"type\":\"TreasuryWithdrawals\",\"targets\":[[\"1k00000000000000000000000000000000000000000000000000000010\",7]]}\n",
        ),
    ];
    for found in counts {
        assert!(rt; found == Some(1));
    }
}

#[test]
fn reads_no_other_action(rt: HostRuntime) {
    let counts = [
        // a space, another order, a null, an unknown name, a number with a zero, no action
        count::<ActionLines>(
            &rt,
            b"action 0000000000000000000000000000000000000000000000000000000000000002#0 {\"type\": \"Info\"}\n",
        ),
        count::<ActionLines>(
            &rt,
            b"action 0000000000000000000000000000000000000000000000000000000000000002#0 {\"version\":[10,1],\"type\":\"HardForkInitiation\"}\n",
        ),
        count::<ActionLines>(
            &rt,
            b"action 0000000000000000000000000000000000000000000000000000000000000002#0 {\"type\":\"NoConfidence\",\"previous\":null}\n",
        ),
        count::<ActionLines>(
            &rt,
            b"action 0000000000000000000000000000000000000000000000000000000000000002#0 {\"type\":\"Info\",\"more\":1}\n",
        ),
        count::<ActionLines>(
            &rt,
            b"action 0000000000000000000000000000000000000000000000000000000000000002#0 {\"type\":\"HardForkInitiation\",\"version\":[10,1.0]}\n",
        ),
        count::<ActionLines>(
            &rt,
            b"action 0000000000000000000000000000000000000000000000000000000000000002#00 {\"type\":\"Info\"}\n",
        ),
        count::<ActionLines>(
            &rt,
            b"action 0000000000000000000000000000000000000000000000000000000000000002#0 {\"type\":\"Other\"}\n",
        ),
        count::<ActionLines>(
            &rt,
            b"proposal 0000000000000000000000000000000000000000000000000000000000000002#0 {\"type\":\"Info\"}\n",
        ),
    ];
    for found in counts {
        assert!(rt; found == Some(0));
    }
}
