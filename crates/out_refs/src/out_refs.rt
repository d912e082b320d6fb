ghost use Rattle.std.specs.Prelude.{◌≡◌, [], IsTrue, ◌↔◌, IfOk, length};
ghost use Rattle.out_refs.specs.Repeated.{first_repeated};

use crate::repeats::first_repeated;
use gov_ids::OutRef;
use gov_ids::of_no_memory::NoMemory;
use std::alloc::Global;
use std::marker::Model;

/// A list of references. Contracts see the list of its items.
/// It finds its first repeated reference when it is made, so that no rule searches for it.
#[derive(Debug, Drop)]
pub struct OutRefs {
    refs: Vec<OutRef>,
    repeated: Option<usize>,
}

impl Model for OutRefs {
    ghost use Rattle.std.specs.Prelude.{◌≡◌, List};
    ghost use Rattle.gov_ids.specs.declared.OutRef.{OutRef};
    ghost use Rattle.out_refs.specs.Repeated.{first_repeated};

    ghost Value = { List OutRef };

    ghost view = { λ a. a.refs.items };

    ghost invariant = { λ a. a.repeated ≡ first_repeated a.refs.items };
}

impl OutRefs {
    /// The empty list. It takes no memory.
    pub fn new(alloc: Global) -> Self
        ensures { result ≡ [] }
    {
        OutRefs {
            refs: Vec::new(alloc),
            repeated: None,
        }
    }

    /// The list of these references.
    /// `NoMemory`: only with more than eight; a shorter list takes no memory.
    pub fn from_vec(alloc: Global, refs: Vec<OutRef>) -> Result<Self, NoMemory>
        ensures { IfOk result (λ list. list ≡ refs.items) }
    {
        let repeated = first_repeated(alloc, refs.as_slice())?;
        Ok(OutRefs { refs, repeated })
    }

    /// The references again. It takes no memory.
    pub fn into_vec(self) -> Vec<OutRef>
        ensures { result.items ≡ self }
    {
        self.refs
    }

    /// The references as a slice.
    pub fn as_slice(&self) -> &[OutRef]
        ensures { result.now ≡ self.now }
    {
        self.refs.as_slice()
    }

    /// How many references there are.
    pub fn len(&self) -> usize
        ensures { result ≡ length self.now }
    {
        self.refs.len()
    }

    /// Whether the list is empty.
    pub fn is_empty(&self) -> bool
        ensures { IsTrue result ↔ (self.now ≡ []) }
    {
        self.refs.is_empty()
    }

    /// The place, from 0, of the first reference that is in the list before it too.
    pub fn first_repeated(&self) -> Option<usize>
        ensures { result ≡ first_repeated self.now }
    {
        self.repeated
    }
}
