//! The bytes of streams.
use crate::made::MADE;
use byte_lines::Source;
use gen_load::GenSource;
use std::process::Abort;
use std::test::Fail;

/// The number of bytes that a source has left, and their FNV-1a of 64 bits.
fn sum_up<S: Source>(rt: &impl Abort, source: &mut S) -> (u64, u64) {
    let mut part = [0u8; 1000];
    let mut length = 0u64;
    let mut sum = 0xCBF2_9CE4_8422_2325u64;
    for _ in 0..u64::MAX {
        let count = source.read(&mut part).ok().expect(rt, "a read failed");
        if count == 0 {
            break;
        }
        length = length.wrapping_add(count as u64);
        for byte in part.get(..count).unwrap_or(&part) {
            sum = (sum ^ u64::from(*byte)).wrapping_mul(0x0100_0000_01B3);
        }
    }
    (length, sum)
}

#[test]
fn made_streams(rt: HostRuntime) -> Result<(), Fail> {
    for (seed, accounts, epochs, length, sum) in MADE {
        assert!(rt; 1 <= accounts && accounts <= 1_000_000 && 1 <= epochs && epochs <= 100);
        let mut source = GenSource::new(rt.alloc(), seed, accounts, epochs)?;
        assert_eq!(rt;
            sum_up(&rt, &mut source),
            (length, sum),
            "{seed} {accounts} {epochs}"
        );
    }
    Ok(())
}
