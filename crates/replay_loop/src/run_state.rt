use byte_lines::SinkFault;
use report::LineTaker;
use std::alloc::Global;
use tx_records::Pots;

/// What a run holds between two records.
/// The loop is written over any, so that its proof opens no part of the ledger.
pub trait RunState: Sized {
    ghost use Rattle.std.specs.Prelude.{◌≡◌, [], ◌∷◌};
    ghost use Rattle.ledger_model.specs.Supply.{pots_of};
    ghost use Rattle.report.specs.Taking.{HasPut};
    ghost use Rattle.run_model.specs.World.{World};
    ghost use Rattle.text_model.specs.Replies.{block_words};
    ghost use Rattle.text_model.specs.StateLines.{asset_lines, state_lines};

    // the whole state of the ledger
    ghost world: { Self → World };

    /// Its pots, in lovelace.
    fn pots(&self) -> Pots
        ensures { result ≡ pots_of (world self.now).ledger };

    /// Hands over the line of an accepted block that left it.
    fn put_block<T: LineTaker>(
        &self,
        to: &mut T,
        text: &mut Vec<u8>,
        line: u64,
    ) -> Result<(), SinkFault>
        ensures { HasPut T.with_line T.IsPart line (T.taken to.old) (block_words (world self.now) ∷ []) (T.taken to.new)
            (T.faults to.old) (T.faults to.new) result };

    /// Hands over the lines of a print of it.
    fn put_state<T: LineTaker>(
        &self,
        to: &mut T,
        text: &mut Vec<u8>,
        line: u64,
    ) -> Result<(), SinkFault>
        ensures { HasPut T.with_line T.IsPart line (T.taken to.old) (state_lines (world self.now)) (T.taken to.new)
            (T.faults to.old) (T.faults to.new) result };

    /// Hands over the lines of a print of the native assets that its unspent outputs hold.
    fn put_assets<T: LineTaker>(
        &self,
        to: &mut T,
        text: &mut Vec<u8>,
        line: u64,
    ) -> Result<(), SinkFault>
        ensures { HasPut T.with_line T.IsPart line (T.taken to.old) (asset_lines (world self.now)) (T.taken to.new)
            (T.faults to.old) (T.faults to.new) result };
}

/// A state that can say at the end of a run what it comes to, in lines without numbers. Each call
/// consumes the state.
pub trait LastState: RunState {
    ghost use Rattle.gathered_lines.specs.of_bare_lines.Bare.{bare, bare_part};
    ghost use Rattle.checkpoint_model.specs.Checkpoint.{checkpoint_lines};
    ghost use Rattle.outlook_model.specs.Outlook.{outlook_lines};
    ghost use Rattle.report.specs.Taking.{HasPut};
    ghost use Rattle.shortfall_model.specs.ShortLines.{shortfall_lines};

    /// Hands over what each frozen proposal lacks, by priority.
    fn put_short<T: LineTaker>(
        self,
        alloc: Global,
        to: &mut T,
        text: &mut Vec<u8>,
    ) -> Result<(), SinkFault>
        ensures { HasPut (bare T.with_line) (bare_part T.IsPart) 0 (T.taken to.old) (shortfall_lines (Self.world self).frozen) (T.taken to.new)
            (T.faults to.old) (T.faults to.new) result };

    /// Hands over the whole state after so many lines, as a checkpoint.
    fn put_checkpoint<T: LineTaker>(
        self,
        line: u64,
        to: &mut T,
        text: &mut Vec<u8>,
    ) -> Result<(), SinkFault>
        ensures { HasPut (bare T.with_line) (bare_part T.IsPart) 0 (T.taken to.old) (checkpoint_lines (Self.world self) line) (T.taken to.new)
            (T.faults to.old) (T.faults to.new) result };

    /// Hands over the tallies of the next two boundaries, as if no further record came.
    fn put_outlook<T: LineTaker>(
        self,
        alloc: Global,
        to: &mut T,
        text: &mut Vec<u8>,
    ) -> Result<(), SinkFault>
        ensures { HasPut (bare T.with_line) (bare_part T.IsPart) 0 (T.taken to.old) (outlook_lines (Self.world self)) (T.taken to.new)
            (T.faults to.old) (T.faults to.new) result };
}

/// A state whose epoch can be certified before a block ends it.
pub trait CertifiedState: RunState {
    ghost use Rattle.std.specs.Prelude.{◌≡◌};
    ghost use Rattle.gathered_lines.specs.of_bare_lines.Bare.{bare, bare_part};
    ghost use Rattle.certificate_model.specs.Certificate.{certificate_lines};
    ghost use Rattle.replay_loop.specs.Certificates.{ends_epoch};
    ghost use Rattle.report.specs.Taking.{HasPut};

    /// Whether a block breaks no rule and begins the next epoch.
    fn ends_epoch(&self, slot: u64, pulse: u32) -> bool
        ensures { result ≡ ends_epoch (Self.world self.now) slot pulse };

    /// Hands over the certificate of what is frozen, in lines without numbers.
    fn put_certificate<T: LineTaker>(
        &self,
        alloc: Global,
        to: &mut T,
        text: &mut Vec<u8>,
    ) -> Result<(), SinkFault>
        ensures { HasPut (bare T.with_line) (bare_part T.IsPart) 0 (T.taken to.old) (certificate_lines (Self.world self.now).frozen) (T.taken to.new)
            (T.faults to.old) (T.faults to.new) result };
}
