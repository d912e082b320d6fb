use crate::fault::RunFault;
use byte_lines::Sink;

/// A command that reads lines. The loop over it is proved once, for every `play`.
pub trait LineCommand {
    ghost use Rattle.std.specs.Prelude.{◌≡◌, ◌≢◌, ℕ, ⊤};
    ghost use Rattle.std.specs.Option.{option_copied};
    ghost use Rattle.byte_lines.specs.Faults.{CountsFaults};
    ghost use Rattle.line_runs.specs.Plays.{Play};
    ghost use Rattle.line_runs.specs.Turns.{IsTurnOf, IsTurned};

    type Cause: Drop;

    ghost Said: { Type 0 };

    ghost Stand: { Type 0 };

    // what it does with what a line says, and at the end
    ghost play: { Play Said Stand Self.Cause };

    // what its calls need of it
    ghost can: { Self → Type 0 };

    // the state it is in
    ghost stands: { Self → Stand → Type 0 };

    /// Takes the line of this number, and emits its text; `None` is a line that is too long.
    fn line<K: Sink>(
        &mut self,
        number: u64,
        line: Option<&[u8]>,
        batch: &mut Vec<u8>,
        sink: &mut K,
    ) -> Result<(), RunFault<Self::Cause>>
        requires { can self.old }
        ensures can { can self.new }
        ensures turns { (s : Stand) → stands self.old s → IsTurnOf play (stands self.new) s number (play.says (option_copied line.entry))
            (record { taken = K.taken sink.old; batch = batch.old.items })
            (record { taken = K.taken sink.new; batch = batch.new.items }) result }
        ensures reads { result ≢ Err RunFault.ReadFault }
        ensures counts { CountsFaults (result ≡ Err RunFault.WriteFault) (K.faults sink.old) (K.faults sink.new) };

    /// Takes the end, after `number` lines, and emits the text there.
    fn end<K: Sink>(
        &mut self,
        number: u64,
        batch: &mut Vec<u8>,
        sink: &mut K,
    ) -> Result<(), RunFault<Self::Cause>>
        requires { can self.old }
        ensures can { can self.new }
        ensures turns { (s : Stand) → stands self.old s → IsTurned (λ _. ⊤) (play.last s number)
            (record { taken = K.taken sink.old; batch = batch.old.items })
            (record { taken = K.taken sink.new; batch = batch.new.items }) result }
        ensures reads { result ≢ Err RunFault.ReadFault }
        ensures counts { CountsFaults (result ≡ Err RunFault.WriteFault) (K.faults sink.old) (K.faults sink.new) };
}
