//! What the last of some boundaries reports, and what it leaves.
use crate::cases::{Case, WORKED};
use crate::lines::{Line, spell};
use crate::proposals::{CHAINS, COMMITTEES, PASSES};
use crate::state::{Changed, Stop, after_epoch, begun, crossed, votes_refused};
use crate::steps::{PAYMENTS, POOLS, STEPS};
use ledger_state::LedgerState;
use no_memory::NoMemory;
use report::epoch_text;
use std::alloc::Global;
use std::test::Fail;
use tx_records::{EpochReport, Pots, Rule};

/// The text of a boundary, as if the first line of a stream came to it.
pub fn text_of(alloc: Global, report: &EpochReport, pots: &Pots) -> Result<Vec<u8>, NoMemory> {
    let mut text = Vec::new(alloc);
    for line in &epoch_text(alloc, 1, report, pots)? {
        text.extend_from_slice(line.as_slice())?;
    }
    Ok(text)
}

/// The text that is wanted, of these lines.
pub fn wanted(alloc: Global, lines: &[&str]) -> Result<Vec<u8>, NoMemory> {
    let mut text = Vec::new(alloc);
    for line in lines {
        spell(&mut text, "1 ")?;
        spell(&mut text, line)?;
        spell(&mut text, "\n")?;
    }
    Ok(text)
}

/// What the last boundary of these epochs reports, and what is seen of the state after it.
fn told<S: Changed + Drop, F: Fn(S) -> Result<(S, EpochReport), Stop>>(
    alloc: Global,
    crossed: &F,
    genesis: Line,
    epochs: &[&[Line]],
) -> Result<(Vec<u8>, [u64; 6]), Stop>
    requires { F.IsAlwaysCallable crossed.now }
{
    let mut s: S = begun(alloc, genesis)?;
    let mut text = Vec::new(alloc);
    for lines in epochs {
        let (next, report) = after_epoch(alloc, crossed, s, lines)?;
        s = next;
        text = text_of(alloc, &report, &s.pots())?;
    }
    Ok((text, s.parts()))
}

/// All cases.
const TABLES: [&[Case]; 6] = [&STEPS, &POOLS, &PAYMENTS, &CHAINS, &PASSES, &COMMITTEES];

#[test]
fn boundaries_tell_what_they_do(rt: HostRuntime) -> Result<(), Fail> {
    let cross = |s: LedgerState| crossed(rt.alloc(), &rt, s);
    for cases in TABLES {
        for case in cases {
            let (text, parts) = told(rt.alloc(), &cross, case.genesis, case.epochs)?;
            let want = wanted(rt.alloc(), case.told)?;
            assert_eq!(&rt; text.as_slice(), want.as_slice(), "{}", case.name);
            assert_eq!(&rt; parts, case.parts, "{}", case.name);
        }
    }
    Ok(())
}

/// The rule on votes that a transaction breaks first, after these lines and as many boundaries.
fn refused_after<S: Changed + Drop, F: Fn(S) -> Result<(S, EpochReport), Stop>>(
    alloc: Global,
    crossed: &F,
    epochs: &[&[Line]],
    tx: Line,
) -> Result<Option<Rule>, Stop>
    requires { F.IsAlwaysCallable crossed.now }
{
    let mut s: S = begun(alloc, WORKED)?;
    for lines in epochs {
        let (next, _report) = after_epoch(alloc, crossed, s, lines)?;
        s = next;
    }
    votes_refused(alloc, &s, tx)
}

/// A proposal of epoch 0 lives for two epochs: votes may come up to epoch 2. In epoch 3 it remains,
/// and may not be voted on.
#[test]
fn votes_end_with_the_life_of_a_proposal(rt: HostRuntime) -> Result<(), Fail> {
    let proposed = [Line::Tx(
        "2",
        r#","fee":10,"proposals":[{"deposit":10,"return":"1k_12","action":{"type":"Info"}}]"#,
    )];
    let vote = Line::Tx(
        "3",
        r#","votes":[{"voter":"drep:k_31","action":"^02#0","vote":"abstain"}]"#,
    );
    let none: &[Line] = &[];
    let cross = |s: LedgerState| crossed(rt.alloc(), &rt, s);
    let epochs = [proposed.as_slice(), none, none];
    for (count, want) in [(2, None), (3, Some((103, Some(0))))] {
        let epochs = epochs.get(..count).unwrap_or(epochs.as_slice());
        let refused = refused_after(rt.alloc(), &cross, epochs, vote)?;
        assert_eq!(&rt;
            refused.map(|rule| (rule.number, rule.place)),
            want,
            "{count} boundaries"
        );
    }
    Ok(())
}
