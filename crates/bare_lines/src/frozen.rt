ghost use Rattle.std.specs.Prelude.{◌≡◌, ◌++◌, OnOk, codes, drop};
ghost use Rattle.bare_lines.specs.Bare.{frozen_text};

use byte_lines::SinkFault;
use no_memory::NoMemory;
use report::LineTaker;

/// Takes lines of the number 0, and passes each on with the word `frozen` instead.
#[derive(Drop)]
pub struct FrozenLine<'a, 'b, T: LineTaker> {
    pub to: &'a mut T,
    /// The buffer for the line that is passed on.
    pub text: &'b mut Vec<u8>,
}

/// Makes the line that is passed on; the buffer loses what it held.
fn make_frozen(text: &mut Vec<u8>, line: &[u8]) -> Result<(), NoMemory>
    ensures { OnOk result (text.new.items ≡ frozen_text line.now) }
{
    text.clear();
    text.extend_from_slice(b"frozen")?;
    if !line.is_empty() {
        text.extend_from_slice(&line[1..])?;
    }
    Ok(())
}

impl<'a, 'b, T: LineTaker> LineTaker for FrozenLine<'a, 'b, T> {
    ghost use Rattle.std.specs.Prelude.{ℕ};
    ghost use Rattle.bare_lines.specs.Bare.{frozen_bare, frozen_part};
    ghost use Rattle.bare_lines.specs.Lent.{lent, lent_part};

    ghost Taken = { ℕ × T.Taken };

    ghost taken = { λ b. (b.to.ghost_name, T.taken b.to.now) };

    ghost with_line = { lent (frozen_bare T.with_line) };

    ghost IsPart = { lent_part (frozen_part T.IsPart) };

    ghost faults = { λ b. T.faults b.to.now };

    fn take(&mut self, line: &[u8]) -> Result<(), SinkFault> {
        make_frozen(self.text, line)?;
        self.to.take(self.text.as_slice())
    }
}
