ghost use Rattle.std.specs.Prelude.{◌≡◌, drop};

use byte_lines::SinkFault;
use report::LineTaker;

/// Takes lines of the number 0, and passes each on without the number and the space after it.
#[derive(Drop)]
pub struct Bare<'a, T: LineTaker> {
    pub to: &'a mut T,
}

/// A line without its first two bytes.
fn after_number(line: &[u8]) -> &[u8]
    ensures { result.now ≡ drop 2 line.now }
{
    if line.len() < 2 {
        &line[line.len()..]
    } else {
        &line[2..]
    }
}

impl<'a, T: LineTaker> LineTaker for Bare<'a, T> {
    ghost use Rattle.std.specs.Prelude.{ℕ};
    ghost use Rattle.bare_lines.specs.Bare.{bare, bare_part};
    ghost use Rattle.bare_lines.specs.Lent.{lent, lent_part};

    ghost Taken = { ℕ × T.Taken };

    ghost taken = { λ b. (b.to.ghost_name, T.taken b.to.now) };

    ghost with_line = { lent (bare T.with_line) };

    ghost IsPart = { lent_part (bare_part T.IsPart) };

    ghost faults = { λ b. T.faults b.to.now };

    fn take(&mut self, line: &[u8]) -> Result<(), SinkFault> {
        self.to.take(after_number(line))
    }
}
