ghost use Rattle.std.specs.Prelude.{◌≡◌, ◌⊎◌, ◌↔◌, ℕ, true, false, Err, IfErr, IfOk, List, None, Ok, Option, Some, []};
ghost use Rattle.certificate_model.specs.Certificate.{claim_lines};
ghost use Rattle.claim_checks.specs.Lines.{left_after_all};
ghost use Rattle.claim_checks.specs.declared.meeting.Stand.TheVariants.{Differs};
ghost use Rattle.gov_model.specs.Snapshot.{Snapshot};
ghost use Rattle.line_giver.specs.Giving.{PassesSome, lines_of_giving};
ghost use Rattle.line_parts.specs.Parts.{lines_of};
ghost use Rattle.tally.specs.Counted.{AreOf, CanBeCounted, ForSnapshot};

use crate::meeting::{Meeting, Stand, Start};
use byte_lines::{Line, LineFault, SinkFault};
use claims::put_claims;
use drep_pulser::Counted;
use line_giver::LineGiver;
use snapshots::Frozen;
use std::alloc::Global;
use std::marker::{Brand, PhantomData};

/// Whether lines were met, by how they were taken.
fn answer_of(put: Result<(), SinkFault>, stand: Stand) -> Result<bool, LineFault>
    ensures same { result ≡ Ok true → put ≡ Ok tt }
    ensures differs { result ≡ Ok false → stand ≡ Differs }
{
    match put {
        Ok(()) => Ok(true),
        Err(_) => match stand {
            Stand::Differs => Ok(false),
            Stand::Failed(fault) => Err(fault),
            Stand::Same => Err(LineFault::NoMemory),
        },
    }
}

/// A giver that is lent, and whether its lines were those that were asked for.
struct Compared<'a, G> {
    giver: &'a mut G,
    met: Result<bool, LineFault>,
}

/// Passes the results of the certificate, each line after the other, up to one that differs.
/// Returns the giver, and whether none does.
fn pass_claims<'a, G: LineGiver, W: Start<G>>(
    alloc: Global,
    giver: &'a mut G,
    text: &mut Vec<u8>,
    frozen: &Frozen,
    counted: &Counted,
) -> Compared<'a, G>
    requires can { CanBeCounted frozen.now counted.now }
    requires starts { W.start ≡ Some (record { name = giver.ghost_name; giver = giver.old }) }
    ensures same_reference { result.giver.ghost_name ≡ giver.entry.ghost_name }
    ensures same { result.met ≡ Ok true → ForSnapshot frozen.now counted.now (λ s.
        lines_of_giving (G.giving result.giver.now) ≡ left_after_all (lines_of_giving (G.giving giver.old)) (claim_lines s)) }
    ensures differs { result.met ≡ Ok false → ForSnapshot frozen.now counted.now (λ s.
        left_after_all (lines_of_giving (G.giving giver.old)) (claim_lines s) ≡ None) }
    ensures passes { PassesSome (G.passed giver.old) (G.passed result.giver.now) (G.giving giver.old) (G.giving result.giver.now) }
{
    let mut meeting: Meeting<'a, G, W> = Meeting {
        giver,
        stand: Stand::Same,
        start: PhantomData,
    };
    let put = put_claims(alloc, &mut meeting, text, frozen, counted);
    let Meeting {
        giver,
        stand,
        start: _,
    } = meeting;
    let met = answer_of(put, stand);
    Compared { giver, met }
}

/// Whether lines were met and none is left.
fn is_all<G: LineGiver>(met: Result<bool, LineFault>, giver: &mut G) -> Result<bool, LineFault>
    ensures met { IfOk result (λ is_all. (met ≡ Ok true) ⊎ (met ≡ Ok false)) }
    ensures all { IfOk result (λ is_all. (rest : List (Option (List ℕ))) → lines_of_giving (G.giving giver.old) ≡ Some rest →
        (is_all ≡ true) ↔ (met ≡ Ok true) × (rest ≡ [])) }
    ensures passes { PassesSome (G.passed giver.old) (G.passed giver.new) (G.giving giver.old) (G.giving giver.new) }
{
    if !met? {
        return Ok(false);
    }
    let line = giver.peek()?;
    Ok(line == Line::End)
}

/// Whether the lines that are left, all of them, are the results of the certificate of what is
/// frozen, with these stakes of DReps: the parts and the verdict of a proposal are made when all
/// lines before them were met. Some lines may be passed, also before an error. The buffer loses
/// what it held.
pub fn meet_claims<G: LineGiver>(
    alloc: Global,
    giver: &mut G,
    text: &mut Vec<u8>,
    frozen: &Frozen,
    counted: &Counted,
) -> Result<bool, LineFault>
    requires { CanBeCounted frozen.now counted.now }
    ensures met { IfOk result (λ met. (s : Snapshot) (lines : List (Option (List ℕ))) → AreOf s frozen.now counted.now →
        lines_of_giving (G.giving giver.old) ≡ Some lines → (met ≡ true) ↔ (lines ≡ lines_of (claim_lines s))) }
    ensures some { PassesSome (G.passed giver.old) (G.passed giver.new) (G.giving giver.old) (G.giving giver.new) }
{
    let compared = pass_claims::<G, Brand>(alloc, giver, text, frozen, counted);
    let Compared { giver, met } = compared;
    is_all(met, giver)
}
