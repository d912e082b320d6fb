ghost use Rattle.std.specs.Prelude.{◌≡◌};
ghost use Rattle.bare_lines.specs.Bare.{bare, bare_part};
ghost use Rattle.outlook_model.specs.Outlook.{outlook_lines};
ghost use Rattle.replay_loop.specs.Certificates.{ends_epoch};
ghost use Rattle.report.specs.Taking.{HasPut};
ghost use Rattle.shortfall_model.specs.ShortLines.{shortfall_lines};

use all_broken::all_broken;
use bare_lines::Bare;
use byte_lines::SinkFault;
use certificate_print::put_certificate;
use checkpoint_print::of_state_view::{put_assets, put_block, put_state};
use checkpoint_print::put_checkpoint;
use explain_loop::ExplainedState;
use explain_loop::of_explain_print::put_rules;
use listed::Boxed;
use outlook::put_outlook;
use replay_loop::{CertifiedState, LastState, RunState};
use report::LineTaker;
use shortfall::of_ledger_state::LedgerState;
use shortfall::put_shortfall;
use std::alloc::Global;
use tx_records::{Pots, Record};

/// The ledger that a run holds between two records, boxed: to move it moves a pointer.
#[derive(Drop)]
pub struct Held {
    pub ledger: Boxed<LedgerState>,
}

impl Held {
    /// The ledger.
    pub fn ledger(&self) -> &LedgerState
        ensures { result.now ≡ self.now.ledger }
    {
        self.ledger.get()
    }
}

/// Hands over the tallies of the next two boundaries of a ledger, without numbers.
fn put_bare_outlook<T: LineTaker>(
    alloc: Global,
    to: &mut T,
    text: &mut Vec<u8>,
    ledger: LedgerState,
) -> Result<(), SinkFault>
    ensures { HasPut (bare T.with_line) (bare_part T.IsPart) 0 (T.taken to.old) (outlook_lines ledger) (T.taken to.new)
        (T.faults to.old) (T.faults to.new) result }
{
    let mut bare = Bare { to };
    put_outlook(alloc, &mut bare, text, 0, ledger)
}

/// Hands over the lines of what each frozen proposal of a ledger lacks, without numbers.
fn put_bare_shortfall<T: LineTaker>(
    alloc: Global,
    to: &mut T,
    text: &mut Vec<u8>,
    ledger: LedgerState,
) -> Result<(), SinkFault>
    ensures { HasPut (bare T.with_line) (bare_part T.IsPart) 0 (T.taken to.old) (shortfall_lines ledger.frozen) (T.taken to.new)
        (T.faults to.old) (T.faults to.new) result }
{
    let mut bare = Bare { to };
    put_shortfall(alloc, &mut bare, text, 0, ledger)
}

impl RunState for Held {
    ghost use Rattle.run_model.specs.World.{World};

    ghost world = { λ held. held.ledger };

    fn pots(&self) -> Pots {
        self.ledger.get().pots()
    }

    fn put_block<T: LineTaker>(
        &self,
        to: &mut T,
        text: &mut Vec<u8>,
        line: u64,
    ) -> Result<(), SinkFault> {
        put_block(to, text, line, self.ledger.get())
    }

    fn put_state<T: LineTaker>(
        &self,
        to: &mut T,
        text: &mut Vec<u8>,
        line: u64,
    ) -> Result<(), SinkFault> {
        put_state(to, text, line, self.ledger.get())
    }

    fn put_assets<T: LineTaker>(
        &self,
        to: &mut T,
        text: &mut Vec<u8>,
        line: u64,
    ) -> Result<(), SinkFault> {
        put_assets(to, text, line, self.ledger.get())
    }
}

impl LastState for Held {
    fn put_short<T: LineTaker>(
        self,
        alloc: Global,
        to: &mut T,
        text: &mut Vec<u8>,
    ) -> Result<(), SinkFault> {
        put_bare_shortfall(alloc, to, text, self.ledger.into_value())
    }

    fn put_checkpoint<T: LineTaker>(
        self,
        line: u64,
        to: &mut T,
        text: &mut Vec<u8>,
    ) -> Result<(), SinkFault> {
        put_checkpoint(to, text, self.ledger.get(), line)
    }

    fn put_outlook<T: LineTaker>(
        self,
        alloc: Global,
        to: &mut T,
        text: &mut Vec<u8>,
    ) -> Result<(), SinkFault> {
        put_bare_outlook(alloc, to, text, self.ledger.into_value())
    }
}

impl ExplainedState for Held {
    fn put_broken<T: LineTaker>(
        &self,
        alloc: Global,
        record: &Record,
        to: &mut T,
        text: &mut Vec<u8>,
        line: u64,
    ) -> Result<(), SinkFault> {
        let rules = all_broken(alloc, self.ledger.get(), record)?;
        put_rules(to, text, line, rules.as_slice())
    }
}

impl CertifiedState for Held {
    fn ends_epoch(&self, slot: u64, pulse: u32) -> bool {
        ends_epoch(self.ledger.get(), slot, pulse)
    }

    fn put_certificate<T: LineTaker>(
        &self,
        alloc: Global,
        to: &mut T,
        text: &mut Vec<u8>,
    ) -> Result<(), SinkFault> {
        put_certificate(alloc, to, text, self.ledger.get())
    }
}

/// Whether a block breaks no rule and begins the next epoch.
fn ends_epoch(ledger: &LedgerState, slot: u64, pulse: u32) -> bool
    ensures { result ≡ ends_epoch ledger.now slot pulse }
{
    match ledger.check_block(slot, pulse) {
        Ok(enters) => enters,
        Err(_) => false,
    }
}
