//! The stakes of the DReps.
ghost use Rattle.std.specs.Prelude.{◌++◌, [], ◌∷◌, flat_map, map};
ghost use Rattle.claims.specs.Lines.{registered, stake_lines};
ghost use Rattle.gov_ids.specs.declared.Drep.TheVariants as drep;
ghost use Rattle.report.specs.Taking.{HasPut};

use byte_lines::SinkFault;
use drep_pulser::Counted;
use gov_ids::{Credential, Drep};
use item_lines::{ItemLines, put_items};
use report::{LineTaker, put_one};

// The counted stakes of registered DReps.
#[derive(Drop)]
struct Stakes<'a> {
    c: &'a Counted,
}

impl<'a> ItemLines for Stakes<'a> {
    ghost use Rattle.std.specs.Prelude.{⊤, [], ◌∷◌};
    ghost use Rattle.claims.specs.Lines.{stake_lines};
    ghost use Rattle.gov_ids.specs.declared.Drep.TheVariants as drep;

    type Item = (Credential, u64);

    ghost can = { λ _. ⊤ };

    ghost lines = { λ p d. stake_lines p.c.now.sums (drep.Registered d.0 ∷ []) };

    fn put_item<T: LineTaker>(
        &self,
        to: &mut T,
        text: &mut Vec<u8>,
        line: u64,
        item: &(Credential, u64),
    ) -> Result<(), SinkFault> {
        put_stake(to, text, line, self.c, Drep::Registered(item.0))
    }
}

// Hands over the line of a DRep's stake, unless it is 0.
fn put_stake<T: LineTaker>(
    to: &mut T,
    text: &mut Vec<u8>,
    line: u64,
    c: &Counted,
    d: Drep,
) -> Result<(), SinkFault>
    ensures { HasPut T.with_line T.IsPart line (T.taken to.old) (stake_lines c.now.sums (d ∷ []))
        (T.taken to.new) (T.faults to.old) (T.faults to.new) result }
{
    let stake = c.stake(&d);
    if stake == 0 {
        return Ok(());
    }
    put_one(to, text, line, &(d, stake))
}

// Hands over the lines of the stakes of the registered DReps.
fn put_registered<T: LineTaker>(
    to: &mut T,
    text: &mut Vec<u8>,
    line: u64,
    dreps: &[(Credential, u64)],
    c: &Counted,
) -> Result<(), SinkFault>
    ensures { HasPut T.with_line T.IsPart line (T.taken to.old) (stake_lines c.now.sums (registered dreps.now))
        (T.taken to.new) (T.faults to.old) (T.faults to.new) result }
{
    put_items(to, text, line, &Stakes { c }, dreps)
}

// Hands over the lines of the stakes of the two predefined DReps.
fn put_predefined<T: LineTaker>(
    to: &mut T,
    text: &mut Vec<u8>,
    line: u64,
    c: &Counted,
) -> Result<(), SinkFault>
    ensures { HasPut T.with_line T.IsPart line (T.taken to.old) (stake_lines c.now.sums (drep.Abstain ∷ drep.NoConfidence ∷ []))
        (T.taken to.new) (T.faults to.old) (T.faults to.new) result }
{
    put_stake(to, text, line, c, Drep::Abstain)?;
    put_stake(to, text, line, c, Drep::NoConfidence)
}

// Hands over the lines of the stakes of these DReps and of the predefined ones.
pub(crate) fn put_stakes<T: LineTaker>(
    to: &mut T,
    text: &mut Vec<u8>,
    line: u64,
    dreps: &[(Credential, u64)],
    c: &Counted,
) -> Result<(), SinkFault>
    ensures { HasPut T.with_line T.IsPart line (T.taken to.old)
        (stake_lines c.now.sums (registered dreps.now ++ drep.Abstain ∷ drep.NoConfidence ∷ []))
        (T.taken to.new) (T.faults to.old) (T.faults to.new) result }
{
    put_registered(to, text, line, dreps, c)?;
    put_predefined(to, text, line, c)
}
