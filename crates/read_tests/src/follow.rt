//! Lines of a followed stream: the rollback, and what a replay reads as well.
use follow_read::read_follow;
use follow_records::FollowRecord;
use record_read::{RecordFault, Scratch};
use std::test::Fail;
use tx_records::{FieldName, Record};

/// What each line is refused for, if it is.
const LINES: [(&str, Option<RecordFault>); 16] = [
    (r#"{"kind":"rollback","slot":0}"#, None),
    (r#"{"slot":4611686018427387903,"kind":"rollback"}"#, None),
    (r#"{"kind":"rollback","slot":5,"pulse":"x"}"#, None),
    (r#"{"kind":"block","kind":"rollback","slot":5}"#, None),
    (
        r#"{"kind":"rollback","slot":4611686018427387904}"#,
        BAD_SLOT,
    ),
    (r#"{"kind":"rollback","slot":-1}"#, BAD_SLOT),
    (r#"{"kind":"rollback","slot":5.0}"#, BAD_SLOT),
    (r#"{"kind":"rollback","slot":"5"}"#, BAD_SLOT),
    (r#"{"kind":"rollback","slot":null}"#, BAD_SLOT),
    (r#"{"kind":"rollback"}"#, BAD_SLOT),
    (
        r#"{"kind":"Rollback","slot":5}"#,
        Some(RecordFault::UnknownKind),
    ),
    (r#"{"slot":5}"#, Some(RecordFault::UnknownKind)),
    (r#"["rollback",5]"#, Some(RecordFault::UnknownKind)),
    (r#"{"kind":"rollback","slot":5"#, Some(RecordFault::BadJson)),
    (r#"{"kind":"block","slot":5,"pulse":3}"#, None),
    (r#"{"kind":"block","slot":5}"#, BAD_PULSE),
];

const BAD_SLOT: Option<RecordFault> = Some(RecordFault::BadField {
    name: FieldName::Slot,
    place: None,
});

const BAD_PULSE: Option<RecordFault> = Some(RecordFault::BadField {
    name: FieldName::Pulse,
    place: None,
});

#[test]
fn reads_lines_of_a_followed_stream(rt: HostRuntime) -> Result<(), Fail> {
    let mut scratch = Scratch::new(rt.alloc());
    for (line, fault) in LINES {
        let read = read_follow(rt.alloc(), &mut scratch, line.as_bytes()).err();
        assert_eq!(rt; read, fault, "{line}");
    }
    Ok(())
}

#[test]
fn tells_a_rollback_from_a_block(rt: HostRuntime) -> Result<(), Fail> {
    let mut scratch = Scratch::new(rt.alloc());
    let line = br#"{"kind":"rollback","slot":5}"#;
    let read = read_follow(rt.alloc(), &mut scratch, line).ok();
    assert!(rt; matches!(read, Some(FollowRecord::Rollback { slot: 5 })));
    let line = br#"{"kind":"block","slot":5,"pulse":3}"#;
    let read = read_follow(rt.alloc(), &mut scratch, line).ok();
    assert!(rt;
        matches!(
            read,
            Some(FollowRecord::Plain(Record::Block { slot: 5, pulse: 3 }))
        )
    );
    Ok(())
}
