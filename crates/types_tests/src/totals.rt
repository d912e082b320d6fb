//! Amounts by a key of a plain type: put, put again, copied and taken.
use coin_frac::TotalMap;
use std::test::Fail;

#[test]
fn keeps_amounts(rt: HostRuntime) -> Result<(), Fail> {
    let mut map = TotalMap::new(rt.alloc());
    map.put(7u8, 5)?;
    map.put(2, 11)?;
    map.put(7, 3)?;
    let copy = map.copied(rt.alloc())?;
    assert_eq!(rt; copy.total(), 14);
    assert_eq!(rt; map.take(&2), 11);
    assert_eq!(rt; map.total(), 3);
    Ok(())
}
