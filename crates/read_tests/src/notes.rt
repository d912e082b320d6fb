//! What there is to say of lines beside their readings.
use no_memory::NoMemory;
use record_notes::{Scratch, What, read_noted};
use std::alloc::Global;
use std::test::Fail;

/// The word of a note; a place has the number of its bytes.
fn word(what: What) -> &'static str {
    match what {
        What::NoJson(0) => " at 0\n",
        What::NoJson(1) => " at 1\n",
        What::NoJson(2) => " at 2\n",
        What::NoJson(3) => " at 3\n",
        What::NoJson(5) => " at 5\n",
        What::NoJson(6) => " at 6\n",
        What::NoJson(_) => " elsewhere\n",
        What::Missing => " missing\n",
        What::WrongKind => " wrong-kind\n",
        What::OutOfRange => " out-of-range\n",
        What::UnknownForm => " unknown-form\n",
        What::Unread => " unread\n",
    }
}

/// The notes of a line, one after the other.
fn notes(alloc: Global, line: &str) -> Result<Vec<u8>, NoMemory> {
    let mut scratch = Scratch::new(alloc);
    let mut text = Vec::new(alloc);
    if let Some(noted) = read_noted(alloc, &mut scratch, line.as_bytes())? {
        for note in noted.notes.iter() {
            text.extend_from_slice(note.path.as_slice())?;
            text.extend_from_slice(word(note.what).as_bytes())?;
        }
    }
    Ok(text)
}

/// Lines, and what there is to say of each.
const ROWS: [(&str, &str); 22] = [
    ("", ""),
    (" \t", ""),
    ("{", "json at 1\n"),
    ("x", "json at 0\n"),
    ("7 7", "json at 2\n"),
    ("[1,]", "json at 3\n"),
    (r#"["a" 1]"#, "json at 5\n"),
    (r#""\ud80"#, "json at 6\n"),
    ("7", " wrong-kind\n"),
    ("{}", "kind missing\n"),
    (r#"{"kind":7}"#, "kind wrong-kind\n"),
    (r#"{"kind":"rollback"}"#, "kind unknown-form\n"),
    (r#"{"kind":"block","slot":5,"pulse":3}"#, ""),
    (
        r#"{"kind":"block","slott":5,"slot":5,"pulse":3,"a.b":{"slot":1}}"#,
        "a%2Eb unread\nslott unread\n",
    ),
    (
        r#"{"kind":"block","slot":4611686018427387904,"pulse":4294967296}"#,
        "slot out-of-range\npulse out-of-range\n",
    ),
    (
        r#"{"kind":"block","slot":null,"pulse":"3"}"#,
        "slot missing\npulse wrong-kind\n",
    ),
    (r#"{"kind":"print","what":"pot"}"#, "what unknown-form\n"),
    (
        r#"{"kind":"print","what":"pot","what":"pots","kinds":1,"kinds":2}"#,
        "kinds unread\n",
    ),
    (
        r#"{"kind":"rewards","epoch":1,"fromReserves":1,"fromFees":1,"toTreasury":1,"rewards":[["k",1],[7],9]}"#,
        "rewards[0][0] unknown-form\nrewards[1] out-of-range\nrewards[2] wrong-kind\n",
    ),
    (
        r#"{"kind":"tx","inputs":[],"outputs":[["1k",1,1,[["",7,0]]]],"fee":0,"size":1,"certs":[{"cert":"delegate","cred":"x","refund":1,"drep":"alwaysAbstain"},{"cert":"x"}],"withdrawls":[]}"#,
        "withdrawls unread\nid missing\noutputs[0][0] unknown-form\noutputs[0][3][0][0] unknown-form\noutputs[0][3][0][1] wrong-kind\noutputs[0][3][0][2] out-of-range\ncerts[0].refund unread\ncerts[0].cred unknown-form\ncerts[0].drep unknown-form\ncerts[1].cert unknown-form\n",
    ),
    (
        r#"{"kind":"tx","proposals":[{"deposit":1,"action":{"type":"ParameterChange","update":{"rho":[2,1],"rhoo":1,"poolVotingThresholds":[[0,1]]}}}],"votes":[{"vote":"maybe"}]}"#,
        "id missing\ninputs missing\noutputs missing\nfee missing\nsize missing\nproposals[0].return missing\nproposals[0].action.update.rhoo unread\nproposals[0].action.update.rho out-of-range\nproposals[0].action.update.poolVotingThresholds out-of-range\nvotes[0].voter missing\nvotes[0].action missing\nvotes[0].vote unknown-form\n",
    ),
    (
        r#"{"kind":"genesis","version":[9,0],"network":2,"params":[],"pools":[["",1,1,1,[1,0],"",null]],"accounts":[["",1,1,null,null],["",1]]}"#,
        "network out-of-range\nslot missing\nepochLength missing\nversion[0] out-of-range\nsupply missing\nreserves missing\ntreasury missing\nparams wrong-kind\ndocument missing\noutputs missing\naccounts[0][0] unknown-form\naccounts[1] out-of-range\npools[0][0] unknown-form\npools[0][4] out-of-range\npools[0][5] unknown-form\npools[0][6] wrong-kind\ndreps missing\n",
    ),
];

#[test]
fn tells_what_is_wrong_inside(rt: HostRuntime) -> Result<(), Fail> {
    for (line, want) in ROWS {
        let text = notes(rt.alloc(), line)?;
        assert_eq!(rt; text.as_slice(), want.as_bytes(), "{line}");
    }
    Ok(())
}
