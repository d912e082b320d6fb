//! The lines of the books.
ghost use Rattle.std.specs.Prelude.{◌++◌, flat_map, map, option_to_list};
ghost use Rattle.report.specs.Taking.{HasPut};
ghost use Rattle.state_print.specs.Views.{shown_of_view};
ghost use Rattle.text_model.specs.StateLines.{account_words, book_lines, drep_words, next_words, pool_lines};

use crate::outputs::put_outputs;
use crate::proposals::put_proposals;
use crate::view::StateView;
use crate::walk::{Walked, put_walk};
use book_records::{DrepState, Entry, Pool, PoolTerms};
use byte_lines::SinkFault;
use cert_pool::PoolBook;
use drep_book::DrepBook;
use gov_ids::{Credential, PoolId};
use report::{LineTaker, put_one};
use stake_book::StakeBook;
use state_lines::StateLine;

impl Walked for DrepBook {
    ghost use Rattle.std.specs.Prelude.{[], ◌∷◌};
    ghost use Rattle.gov_ids.specs.Orders.{credential_cmp};
    ghost use Rattle.text_model.specs.StateLines.{drep_words};
    ghost use Rattle.view_map.specs.Walk.{entries_past};

    type Key = Credential;

    type Held = DrepState;

    ghost past = { λ book after. entries_past credential_cmp after book.dreps };

    ghost lines = { λ _ e. drep_words e ∷ [] };

    fn following(&self, after: Option<&Credential>) -> Option<(Credential, DrepState)> {
        self.next(after)
    }

    fn put_entry<T: LineTaker>(
        &self,
        to: &mut T,
        text: &mut Vec<u8>,
        line: u64,
        entry: &(Credential, DrepState),
    ) -> Result<(), SinkFault> {
        put_one(to, text, line, &StateLine::Drep(&entry.0, &entry.1))
    }
}

impl Walked for PoolBook {
    ghost use Rattle.gov_ids.specs.Orders.{pool_cmp};
    ghost use Rattle.text_model.specs.StateLines.{pool_lines};
    ghost use Rattle.view_map.specs.Walk.{entries_past};

    type Key = PoolId;

    type Held = Pool;

    ghost past = { λ book after. entries_past pool_cmp after book };

    ghost lines = { λ _ e. pool_lines e };

    fn following(&self, after: Option<&PoolId>) -> Option<(PoolId, Pool)> {
        self.next(after)
    }

    fn put_entry<T: LineTaker>(
        &self,
        to: &mut T,
        text: &mut Vec<u8>,
        line: u64,
        entry: &(PoolId, Pool),
    ) -> Result<(), SinkFault> {
        put_one(to, text, line, &StateLine::Pool(&entry.0, &entry.1))?;
        put_next(to, text, line, &entry.0, &entry.1.future)
    }
}

/// Hands over the line of a pool's future terms, where there are any.
fn put_next<T: LineTaker>(
    to: &mut T,
    text: &mut Vec<u8>,
    line: u64,
    id: &PoolId,
    future: &Option<PoolTerms>,
) -> Result<(), SinkFault>
    ensures { HasPut T.with_line T.IsPart line (T.taken to.old) (map (next_words id.now) (option_to_list future.now))
        (T.taken to.new) (T.faults to.old) (T.faults to.new) result }
{
    match future {
        None => Ok(()),
        Some(terms) => put_one(to, text, line, &StateLine::NextTerms(id, terms)),
    }
}

/// The credentials that are registered or have output stake.
#[derive(Drop)]
struct Entries<'a> {
    stake: &'a StakeBook,
}

impl<'a> Walked for Entries<'a> {
    ghost use Rattle.std.specs.Prelude.{[], ◌∷◌};
    ghost use Rattle.gov_ids.specs.Orders.{credential_cmp};
    ghost use Rattle.text_model.specs.StateLines.{account_words};
    ghost use Rattle.view_map.specs.Walk.{entries_past};

    type Key = Credential;

    type Held = Entry;

    ghost past = { λ p after. entries_past credential_cmp after p.stake.now.accounts.live };

    ghost lines = { λ _ e. account_words e ∷ [] };

    fn following(&self, after: Option<&Credential>) -> Option<(Credential, Entry)> {
        self.stake.book().next(after)
    }

    fn put_entry<T: LineTaker>(
        &self,
        to: &mut T,
        text: &mut Vec<u8>,
        line: u64,
        entry: &(Credential, Entry),
    ) -> Result<(), SinkFault> {
        put_one(to, text, line, &StateLine::Account(&entry.0, &entry.1))
    }
}

/// Hands over the lines of the DReps.
fn put_dreps<T: LineTaker>(
    to: &mut T,
    text: &mut Vec<u8>,
    line: u64,
    dreps: &DrepBook,
) -> Result<(), SinkFault>
    ensures { HasPut T.with_line T.IsPart line (T.taken to.old) (map drep_words dreps.now.dreps)
        (T.taken to.new) (T.faults to.old) (T.faults to.new) result }
{
    put_walk(to, text, line, dreps)
}

/// Hands over the lines of the pools, each with its future terms.
fn put_pools<T: LineTaker>(
    to: &mut T,
    text: &mut Vec<u8>,
    line: u64,
    pools: &PoolBook,
) -> Result<(), SinkFault>
    ensures { HasPut T.with_line T.IsPart line (T.taken to.old) (flat_map pool_lines pools.now)
        (T.taken to.new) (T.faults to.old) (T.faults to.new) result }
{
    put_walk(to, text, line, pools)
}

/// Hands over the lines of the credentials that are registered or have output stake.
fn put_entries<T: LineTaker>(
    to: &mut T,
    text: &mut Vec<u8>,
    line: u64,
    stake: &StakeBook,
) -> Result<(), SinkFault>
    ensures { HasPut T.with_line T.IsPart line (T.taken to.old) (map account_words stake.now.accounts.live)
        (T.taken to.new) (T.faults to.old) (T.faults to.new) result }
{
    put_walk(to, text, line, &Entries { stake })
}

/// Hands over the lines of what is registered.
fn put_registered<T: LineTaker>(
    to: &mut T,
    text: &mut Vec<u8>,
    line: u64,
    view: &StateView<'_>,
) -> Result<(), SinkFault>
    ensures { HasPut T.with_line T.IsPart line (T.taken to.old)
        (map drep_words (shown_of_view view.now).dreps ++ flat_map pool_lines (shown_of_view view.now).pools
        ++ map account_words (shown_of_view view.now).entries)
        (T.taken to.new) (T.faults to.old) (T.faults to.new) result }
{
    put_dreps(to, text, line, view.dreps)?;
    put_pools(to, text, line, view.pools)?;
    put_entries(to, text, line, view.stake)
}

/// Hands over the lines of the books, one after another.
pub(crate) fn put_books<T: LineTaker>(
    to: &mut T,
    text: &mut Vec<u8>,
    line: u64,
    view: &StateView<'_>,
) -> Result<(), SinkFault>
    ensures { HasPut T.with_line T.IsPart line (T.taken to.old) (book_lines (shown_of_view view.now))
        (T.taken to.new) (T.faults to.old) (T.faults to.new) result }
{
    put_registered(to, text, line, view)?;
    put_outputs(to, text, line, view.stake.outputs())?;
    put_proposals(to, text, line, view.proposals)
}
