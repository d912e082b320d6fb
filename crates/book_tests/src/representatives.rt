//! The book of DReps: restored entries, and expiries after a refresh.
ghost use Rattle.std.specs.Prelude.{◌+◌, ◌^◌, ◌<◌};

use book_records::DrepState;
use drep_book::DrepBook;
use gov_ids::{CredKind, Credential};
use std::alloc::Global;
use std::test::Fail;

fn drep(byte: u8) -> Credential {
    Credential {
        hash: [byte; 28],
        kind: CredKind::Key,
    }
}

/// The expiry of one DRep after a refresh at the epoch, from this expiry.
fn refreshed(alloc: Global, expiry: u64, dormant: u64, epoch: u64) -> Result<Option<u64>, Fail>
    requires { expiry + dormant < 2 ^ 64 }
{
    let mut book = DrepBook::new(alloc);
    book.put(drep(30), DrepState { deposit: 5, expiry })?;
    book.set_dormant(dormant);
    book.refresh(epoch);
    Ok(book.get(&drep(30)).map(|d| d.expiry))
}

/// Expiry, dormant epochs and the epoch, and the expiry afterwards.
#[test]
fn adds_dormant_epochs_to_those_that_they_keep(rt: HostRuntime) -> Result<(), Fail> {
    for (expiry, dormant, epoch, left) in [
        (7, 3, 5, 10),
        (7, 3, 10, 10),
        (7, 3, 11, 7),
        (7, 0, 7, 7),
    ] {
        assert!(rt; expiry < 1000 && dormant < 1000);
        assert!(rt; refreshed(rt.alloc(), expiry, dormant, epoch)? == Some(left));
    }
    Ok(())
}

#[test]
fn puts_an_entry_back(rt: HostRuntime) -> Result<(), Fail> {
    let mut book = DrepBook::new(rt.alloc());
    let state = DrepState {
        deposit: 5,
        expiry: 4,
    };
    book.restore(drep(31), Some(state))?;
    assert!(rt; book.get(&drep(31)) == Some(state));
    let listed = book.expiries(rt.alloc())?;
    assert!(rt; listed.as_slice() == [(drep(31), 4)].as_slice());
    Ok(())
}
