ghost use Rattle.std.specs.Prelude.{◌≡◌, ◌↔◌, ℕ, IfOk, List, Option, Some, true};
ghost use Rattle.check_loop.specs.Right.{IsCertificateText};
ghost use Rattle.line_giver.specs.Giving.{PassesSome, lines_of_giving};

use byte_lines::LineFault;
use check_loop::TextChecker;
use claim_checks::meet_claims;
use claim_lengths::claims_are_short;
use line_giver::LineGiver;
use snapshot_counts::certified_of;
use snapshot_reader::read_snapshot;
use std::alloc::Global;

/// Texts that are right if they are certificates of snapshots that fit.
pub struct Certificates;

/// Whether the lines that are left, all of them, are a certificate: its snapshot is read, and its
/// results are made again.
fn is_certificate<G: LineGiver>(
    alloc: Global,
    giver: &mut G,
    text: &mut Vec<u8>,
) -> Result<bool, LineFault>
    ensures right { IfOk result (λ answer. (lines : List (Option (List ℕ))) →
        lines_of_giving (G.giving giver.old) ≡ Some lines → (answer ≡ true) ↔ IsCertificateText lines) }
    ensures passes { PassesSome (G.passed giver.old) (G.passed giver.new) (G.giving giver.old) (G.giving giver.new) }
{
    // (law: the results are no lines that are too long)
    claims_are_short();
    let Some(snapshot) = read_snapshot(alloc, giver, text)? else {
        return Ok(false);
    };
    let certified = certified_of(alloc, snapshot)?;
    meet_claims(alloc, giver, text, &certified.frozen, &certified.counted)
}

impl TextChecker for Certificates {
    ghost use Rattle.check_loop.specs.Right.{IsCertificateText};

    ghost IsRight = { IsCertificateText };

    fn is_right<G: LineGiver>(
        alloc: Global,
        giver: &mut G,
        text: &mut Vec<u8>,
    ) -> Result<bool, LineFault> {
        is_certificate(alloc, giver, text)
    }
}
