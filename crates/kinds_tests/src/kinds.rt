//! Each kind of line read from a source, other spellings of it, and faults in mid-stream.
use book_kinds::{
    AccountLines, AssetLines, DrepLines, ExpiryLines, GoLines, HotLines, MarkLines, NextLines,
    OutputLines, PoolAccountLines, PoolLines, ProposalIdLines, RewardLines, SetLines, UsedLines,
    VoteLines,
};
use byte_lines::{FaultySource, Line, LineFault, Lines, MemorySource, Source};
use line_giver::{LineGiver, ListedLines, SourcedLines};
use line_kinds::{Frozen, LineReader, read_each, read_one};
use no_memory::NoMemory;
use state_kinds::{
    CommitteeLines, ConstitutionLines, EnactedLines, EndLines, HeadLines, MemberLines,
    NonePendingLines, NotedFeesLines, NowLines, PendingLines, ProposalLines, TreasuryLines,
};

/// How many lines of the kind come first; none if there is an error.
fn lines_of<R: LineReader, S: Source>(rt: &HostRuntime, source: &mut S) -> Option<usize> {
    let mut lines = Lines::new(rt.alloc(), 1_000, 1_000_000);
    let mut text = Vec::new(rt.alloc());
    let mut giver = SourcedLines {
        lines: &mut lines,
        source,
        seen: Line::End,
    };
    let items = read_each::<R, SourcedLines<'_, '_, S>>(rt.alloc(), &mut giver, &mut text);
    Some(items.ok()?.len())
}

/// How many lines of the kind come first in a text.
pub(crate) fn count<R: LineReader>(rt: &HostRuntime, text: &'static [u8]) -> Option<usize> {
    lines_of::<R, MemorySource<'_>>(rt, &mut MemorySource::new(text, 7))
}

#[test]
fn reads_each_kind(rt: HostRuntime) {
    let counts = [
        count::<UsedLines>(
            &rt,
            b"used 00000000000000000000000000000000000000000000000000000000000000ab\n",
        ),
        count::<DrepLines>(
            &rt,
            b"drep k00000000000000000000000000000000000000000000000000000030 deposit 5 expiry 20\n",
        ),
        count::<AccountLines>(
            &rt,
            b"account s00000000000000000000000000000000000000000000000000000016 stake 6 unregistered\n",
        ),
        count::<AccountLines>(
            &rt,
            b"account k00000000000000000000000000000000000000000000000000000010 stake 0 deposit 2 rewards 67 pool none drep abstain\n",
        ),
        count::<RewardLines>(
            &rt,
            b"pending reward k00000000000000000000000000000000000000000000000000000010 5\n",
        ),
        count::<OutputLines>(
            &rt,
            b"output 0000000000000000000000000000000000000000000000000000000000000001#0 1k00000000000000000000000000000000000000000000000000000001 20\n",
        ),
        count::<AssetLines>(
            &rt,
            b"asset 00000000000000000000000000000000000000000000000000000005 - 9\n",
        ),
        count::<AssetLines>(
            &rt,
            b"asset 00000000000000000000000000000000000000000000000000000005 ff 18446744073709551615\n",
        ),
        count::<MarkLines>(
            &rt,
            b"snapshot mark 00000000000000000000000000000000000000000000000000000050 0\n",
        ),
        count::<SetLines>(
            &rt,
            b"snapshot set 00000000000000000000000000000000000000000000000000000050 0\n",
        ),
        count::<GoLines>(
            &rt,
            b"snapshot go 00000000000000000000000000000000000000000000000000000048 0\n",
        ),
        count::<HotLines>(
            &rt,
            b"hot k00000000000000000000000000000000000000000000000000000060 resigned\n",
        ),
        count::<VoteLines>(
            &rt,
            b"vote 0000000000000000000000000000000000000000000000000000000000000002#0 drep:s00000000000000000000000000000000000000000000000000000030 yes\n",
        ),
        count::<PoolLines>(
            &rt,
            b"pool 00000000000000000000000000000000000000000000000000000048 deposit 5 cost 0 pledge 0 margin 0/1 account 1k00000000000000000000000000000000000000000000000000000012 retires never key 0000000000000000000000000000000000000000000000000000000000000004\n",
        ),
        count::<PoolLines>(
            &rt,
            b"pool 00000000000000000000000000000000000000000000000000000048 deposit 5 cost 0 pledge 0 margin 1/2 account 1k00000000000000000000000000000000000000000000000000000012 retires 7\n",
        ),
        count::<NextLines>(
            &rt,
            b"next 00000000000000000000000000000000000000000000000000000048 cost 1 pledge 2 margin 1/2 account 1k00000000000000000000000000000000000000000000000000000012\n",
        ),
        count::<Frozen<ExpiryLines>>(
            &rt,
            b"frozen drep k00000000000000000000000000000000000000000000000000000030 expiry 20\n",
        ),
        count::<Frozen<PoolAccountLines>>(
            &rt,
            b"frozen pool 00000000000000000000000000000000000000000000000000000050 account none\n",
        ),
        count::<Frozen<ProposalIdLines>>(
            &rt,
            b"frozen proposal 0000000000000000000000000000000000000000000000000000000000000005#0\n",
        ),
    ];
    for found in counts {
        assert!(rt; found == Some(1));
    }
}

#[test]
fn reads_each_kind_of_a_state(rt: HostRuntime) {
    let counts = [
        count::<HeadLines>(&rt, b"checkpoint 1 line 2 network 1 length 10 counted 1\n"),
        count::<NowLines>(&rt, b"now slot 12 epoch 1 version 10.0 dormant 0\n"),
        count::<ConstitutionLines>(
            &rt,
            b"constitution 0000000000000000000000000000000000000000000000000000000000000001 none\n",
        ),
        count::<CommitteeLines>(&rt, b"committee threshold 1/2\n"),
        count::<CommitteeLines>(&rt, b"committee none\n"),
        count::<MemberLines>(
            &rt,
            b"member k00000000000000000000000000000000000000000000000000000070 term 5 hot resigned\n",
        ),
        count::<EnactedLines>(
            &rt,
            b"enacted committee none constitution none hardfork none parameters none\n",
        ),
        count::<ProposalLines>(
            &rt,
            b"proposal 0000000000000000000000000000000000000000000000000000000000000002#0 Info deposit 5 return 1k00000000000000000000000000000000000000000000000000000010 expires 3 previous none\n",
        ),
        count::<NotedFeesLines>(&rt, b"snapshot fees 7\n"),
        count::<PendingLines>(&rt, b"pending reserves 3 fees 2 treasury 1\n"),
        count::<Frozen<TreasuryLines>>(&rt, b"frozen treasury 100\n"),
        count::<NonePendingLines>(&rt, b"pending none\nend\n"),
        count::<EndLines>(&rt, b"end\nEND\n"),
    ];
    for found in counts {
        assert!(rt; found == Some(1));
    }
}

#[test]
fn reads_no_other_spelling(rt: HostRuntime) {
    let counts = [
        // a capital digit, a space more, a word more, a zero before a number, and another kind
        count::<UsedLines>(
            &rt,
            b"used 00000000000000000000000000000000000000000000000000000000000000AB\n",
        ),
        count::<UsedLines>(
            &rt,
            b"used  00000000000000000000000000000000000000000000000000000000000000ab\n",
        ),
        count::<UsedLines>(
            &rt,
            b"used 00000000000000000000000000000000000000000000000000000000000000ab \n",
        ),
        count::<MarkLines>(
            &rt,
            b"snapshot mark 00000000000000000000000000000000000000000000000000000050 00\n",
        ),
        count::<MarkLines>(
            &rt,
            b"snapshot mark 00000000000000000000000000000000000000000000000000000050 +1\n",
        ),
        count::<MarkLines>(
            &rt,
            b"snapshot set 00000000000000000000000000000000000000000000000000000050 0\n",
        ),
        count::<MarkLines>(
            &rt,
            b"snapshot mark 00000000000000000000000000000000000000000000000000000050 18446744073709551616\n",
        ),
        count::<AssetLines>(
            &rt,
            b"asset 00000000000000000000000000000000000000000000000000000005 ff 0\n",
        ),
        count::<Frozen<ExpiryLines>>(
            &rt,
            b"drep k00000000000000000000000000000000000000000000000000000030 expiry 20\n",
        ),
        count::<ExpiryLines>(
            &rt,
            b"frozen drep k00000000000000000000000000000000000000000000000000000030 expiry 20\n",
        ),
        count::<PoolLines>(
            &rt,
            b"pool 00000000000000000000000000000000000000000000000000000048 deposit 5 cost 0 pledge 0 margin 3/2 account 1k00000000000000000000000000000000000000000000000000000012 retires 7\n",
        ),
        count::<UsedLines>(&rt, b""),
    ];
    for found in counts {
        assert!(rt; found == Some(0));
    }
}

/// A fault in mid-stream is reported, and no line is lost by it.
#[test]
fn reports_a_fault(rt: HostRuntime) {
    let text = b"used 00000000000000000000000000000000000000000000000000000000000000ab\nend\n";
    let mut source = FaultySource::new(text, 10, &[3]);
    let mut lines = Lines::new(rt.alloc(), 1_000, 1_000);
    let mut line = Vec::new(rt.alloc());
    let mut giver = SourcedLines {
        lines: &mut lines,
        source: &mut source,
        seen: Line::End,
    };
    let first = read_one::<UsedLines, _>(&mut giver, &mut line);
    assert!(rt; matches!(first, Err(LineFault::ReadFault)));
    let again = read_one::<UsedLines, _>(&mut giver, &mut line);
    assert!(rt; matches!(again, Ok(Some(_))));
    let none = read_one::<UsedLines, _>(&mut giver, &mut line);
    assert!(rt; matches!(none, Ok(None)));
    assert!(rt; giver.text() == b"end".as_slice());
}

/// A line in memory.
fn held(rt: &HostRuntime, text: &'static [u8]) -> Result<Vec<u8>, NoMemory> {
    let mut line = Vec::new(rt.alloc());
    line.extend_from_slice(text)?;
    Ok(line)
}

/// The rewards at the front of a list of two and another line.
fn rewards_in_list(rt: &HostRuntime) -> Result<(usize, usize), LineFault> {
    let first = held(
        rt,
        b"pending reward k00000000000000000000000000000000000000000000000000000010 5",
    )?;
    let second = held(
        rt,
        b"pending reward k00000000000000000000000000000000000000000000000000000011 6",
    )?;
    let list = [first, second, held(rt, b"end")?];
    let mut line = Vec::new(rt.alloc());
    let mut giver = ListedLines {
        lines: &list,
        is_seen: false,
    };
    let rewards = read_each::<RewardLines, _>(rt.alloc(), &mut giver, &mut line)?;
    Ok((rewards.len(), giver.lines.len()))
}

/// The lines of a list are those that a source would give.
#[test]
fn reads_a_list(rt: HostRuntime) {
    let found = rewards_in_list(&rt);
    assert!(rt; found == Ok((2, 1)));
}
