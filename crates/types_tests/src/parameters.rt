//! An update of a fee and of a size: what it touches, and whether it is well formed.
use pparams::Update;

/// A fee may be set to 0, a size may not, and an update that names nothing is none.
#[test]
fn tells_what_it_touches(rt: HostRuntime) {
    for (min_fee_a, max_tx_size, touched, well_formed) in [
        (Some(45), None, (false, true, false, false), true),
        (Some(0), None, (false, true, false, false), true),
        (None, Some(0), (true, false, false, false), false),
        (None, None, (false, false, false, false), false),
    ] {
        let update = Update {
            min_fee_a,
            max_tx_size,
            ..Update::EMPTY
        };
        let groups = update.groups();
        assert!(rt;
            (
                groups.network,
                groups.economic,
                groups.technical,
                groups.governance
            ) == touched
        );
        assert!(rt; update.security() == (groups.network || groups.economic));
        assert!(rt; update.well_formed() == well_formed);
    }
}
