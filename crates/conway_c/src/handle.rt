//! A ledger behind a struct of one pointer, which is null where it is closed.
ghost use Rattle.std.specs.Prelude.{◌≡◌};
ghost use Rattle.std.specs.Option.{MatchOption};
ghost use Rattle.std.specs.declared.option.Option.{Option};
ghost use Rattle.std.specs.declared.option.Option.TheVariants.{None, Some};
ghost use Rattle.conway_c.specs.Owned.{owned};
ghost use Rattle.embedded.specs.Standing.{Standing};

use crate::ledger::Ledger;
use crate::loose::Loose;
use std::alloc::Global;
use std::marker::Model;
use std::ptr::null_mut;

/// What C holds: a pointer to a ledger, or null. The allocator takes no bytes.
#[repr(C)]
pub struct Conway {
    at: *mut u8,
    alloc: Global,
    pub ghost value: { Option Standing },
}

impl Model for Conway {
    ghost also_owns = { λ h. owned h.alloc h.at h.value };
}

impl Conway {
    /// A closed handle.
    pub(crate) fn closed(alloc: Global) -> Conway
        ensures { result.value ≡ None }
    {
        Conway {
            at: null_mut(),
            alloc,
        }
    }

    fn of_loose(loose: Loose<Ledger, Global>) -> Conway
        ensures { result.value ≡ Some loose.value }
    {
        let Loose { at, alloc } = loose;
        Conway {
            at: at as *mut u8,
            alloc,
        }
    }

    fn into_loose(self) -> Option<Loose<Ledger, Global>>
        ensures { MatchOption result (self.value ≡ None) (λ l. self.value ≡ Some l.value) }
    {
        let Conway { at, alloc } = self;
        if at.is_null() {
            None
        } else {
            Some(Loose {
                at: at as *mut Ledger,
                alloc,
            })
        }
    }

    /// A handle of a ledger.
    pub(crate) fn of(ledger: Box<Ledger>) -> Conway
        ensures { result.value ≡ Some ledger.value }
    {
        Conway::of_loose(Loose::of(ledger))
    }

    /// The ledger, unless the handle is closed.
    pub(crate) fn into_box(self) -> Option<Box<Ledger>>
        ensures { MatchOption result (self.value ≡ None) (λ b. self.value ≡ Some b.value) }
    {
        match self.into_loose() {
            None => None,
            Some(loose) => Some(loose.into_box()),
        }
    }
}

impl Drop for Conway {
    fn drop(self) {
        drop(self.into_box());
    }
}
