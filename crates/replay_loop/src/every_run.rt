ghost use Rattle.run_model.specs.Laws.{AssetsChangeByMint};
ghost use Rattle.replay_loop.specs.Laws.{LinesAreWithin, LinesReach, RefusedChangesNothing, SummariesAreOne, SupplyStays, TextsAreOne};
ghost use Rattle.replay_loop.specs.Certificates.{DoneCertifyIsWhole};
ghost use Rattle.replay_loop.specs.Lasts.{DoneCheckpointIsWhole, DoneOutlookIsWhole, DoneShortfallIsWhole};

use record_stream::of_record_read::lines_read_within_limits;
use run_laws::{assets_change_by_mint, supply_stays};

/// What holds of every run. It does nothing.
pub fn laws()
    ensures within { LinesAreWithin }
    ensures reached { LinesReach }
    ensures supply { SupplyStays }
    ensures assets { AssetsChangeByMint }
    ensures refused { RefusedChangesNothing }
    ensures one_text { TextsAreOne }
    ensures one_summary { SummariesAreOne }
    ensures whole_shortfall { DoneShortfallIsWhole }
    ensures whole_outlook { DoneOutlookIsWhole }
    ensures whole_checkpoint { DoneCheckpointIsWhole }
    ensures whole_certificates { DoneCertifyIsWhole }
{
    lines_read_within_limits();
    supply_stays();
    assets_change_by_mint();
}
