//! What frozen proposals lack of the DReps' need, all together and each by itself.
use crate::epochs::wanted;
use crate::lacks_table::{LACKS, Lack, MOTION};
use crate::lines::{Line, bytes_of, spell};
use crate::state::{Changed, Stop, after_epoch, after_line, begun, begun_by, crossed};
use ledger_state::LedgerState;
use no_memory::NoMemory;
use std::alloc::Global;
use std::test::Fail;
use tx_records::EpochReport;

/// The state after the epochs of a case and the lines behind them.
fn after_all<S: Changed + Drop, F: Fn(S) -> Result<(S, EpochReport), Stop>>(
    alloc: Global,
    crossed: &F,
    case: &Lack,
) -> Result<S, Stop>
    requires { F.IsAlwaysCallable crossed.now }
{
    let mut s: S = begun(alloc, case.genesis)?;
    for lines in case.epochs {
        let (next, _report) = after_epoch(alloc, crossed, s, lines)?;
        s = next;
    }
    for line in case.later {
        s = after_line(alloc, s, *line)?;
    }
    Ok(s)
}

/// The text that is wanted of the proposals in order of submission.
fn told_each(alloc: Global, case: &Lack) -> Result<Vec<u8>, NoMemory> {
    let mut text = Vec::new(alloc);
    for lines in case.told {
        let more = wanted(alloc, lines)?;
        text.extend_from_slice(more.as_slice())?;
    }
    Ok(text)
}

/// The text that is wanted of them in order of priority.
fn told_in_order(alloc: Global, case: &Lack) -> Result<Vec<u8>, NoMemory> {
    let mut text = Vec::new(alloc);
    for at in case.order {
        let lines = case.told.get(*at).copied().unwrap_or(&[]);
        let more = wanted(alloc, lines)?;
        text.extend_from_slice(more.as_slice())?;
    }
    Ok(text)
}

/// What all lack together, in order of priority, and what each lacks by itself.
fn lacked<S: Changed + Drop, F: Fn(S) -> Result<(S, EpochReport), Stop>>(
    alloc: Global,
    crossed: &F,
    case: &Lack,
) -> Result<(Vec<u8>, Vec<u8>), Stop>
    requires { F.IsAlwaysCallable crossed.now }
{
    let all: S = after_all(alloc, crossed, case)?;
    let all = all.lacks(alloc)?;
    let each: S = after_all(alloc, crossed, case)?;
    let each = each.lacks_each(alloc)?;
    Ok((all, each))
}

#[test]
fn proposals_lack_these(rt: HostRuntime) -> Result<(), Fail> {
    let cross = |s: LedgerState| crossed(rt.alloc(), &rt, s);
    for case in &LACKS {
        let (all, each) = lacked(rt.alloc(), &cross, case)?;
        let want = told_in_order(rt.alloc(), case)?;
        assert_eq!(&rt; all.as_slice(), want.as_slice(), "{}", case.name);
        let want = told_each(rt.alloc(), case)?;
        assert_eq!(&rt; each.as_slice(), want.as_slice(), "{}, each", case.name);
    }
    Ok(())
}

/// How many DReps of one lovelace each there are in the next test, and the fewest that are needed.
const CROWD: u32 = 10_000;

const NEEDED: u32 = 6_700;

/// The zeros behind the first four bytes of a hash.
const ZEROS: &str = "000000000000000000000000000000000000000000000000";

/// A genesis with supply for a crowd, up to its accounts, of which the first has nothing.
const CROWDED: Line = Line::Genesis(
    "",
    "",
    r#","supply":100000,"reserves":19688,"accounts":[["k_12",2,0,null,null]"#,
);

/// A genesis with a crowd of accounts of one lovelace; each delegates to a DRep of its own.
fn crowd(alloc: Global) -> Result<Vec<u8>, NoMemory> {
    let mut bytes = bytes_of(alloc, CROWDED)?;
    // the brace that ends a genesis
    bytes.pop();
    for n in 0..CROWD {
        let account = format!(in alloc; r#",["k{n:08x}{ZEROS}",2,1,null,"k{n:08x}{ZEROS}"]"#)?;
        spell(&mut bytes, account.as_str())?;
    }
    spell(&mut bytes, r#"],"dreps":[["k_30",5,0]"#)?;
    for n in 0..CROWD {
        let drep = format!(in alloc; r#",["k{n:08x}{ZEROS}",5,20]"#)?;
        spell(&mut bytes, drep.as_str())?;
    }
    spell(&mut bytes, "]}")?;
    Ok(bytes)
}

/// The text that is wanted of it: the lowest credentials of equal ones.
fn crowd_text(alloc: Global) -> Result<Vec<u8>, NoMemory> {
    let mut text = Vec::new(alloc);
    spell(
        &mut text,
        "1 shortfall ^02#0 least 6700 yes 0 of 10000 need 67/100 short 6699\n",
    )?;
    for n in 0..NEEDED {
        let line = format!(in alloc; "1 add k{n:08x}{ZEROS} 1\n")?;
        spell(&mut text, line.as_str())?;
    }
    Ok(text)
}

/// What a motion lacks after the boundary of the epoch that this genesis begins.
fn crowd_lacks<S: Changed + Drop, F: Fn(S) -> Result<(S, EpochReport), Stop>>(
    alloc: Global,
    crossed: &F,
) -> Result<Vec<u8>, Stop>
    requires { F.IsAlwaysCallable crossed.now }
{
    let genesis = crowd(alloc)?;
    let first: S = begun_by(alloc, genesis.as_slice())?;
    let (s, _report) = after_epoch(alloc, crossed, first, &[MOTION])?;
    s.lacks(alloc)
}

#[test]
fn a_crowd_of_equal_stakes(rt: HostRuntime) -> Result<(), Fail> {
    let cross = |s: LedgerState| crossed(rt.alloc(), &rt, s);
    let text = crowd_lacks(rt.alloc(), &cross)?;
    let want = crowd_text(rt.alloc())?;
    assert_eq!(&rt; text.as_slice(), want.as_slice());
    Ok(())
}
