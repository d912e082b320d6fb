use credential_list::CredentialList;
use gov_ids::{Credential, Named};
use json_fields::{FieldFault, Kind, read_distinct_list, read_number_below};
use json_tree::Value;
use listed::Listed;
use std::alloc::Global;
use std::marker::PhantomData;
use tx_records::limits::{LIST_LIMIT, SLOT_LIMIT};

/// The last epoch of a term: a number below 2^62.
pub struct Term;

impl Kind for Term {
    type Entry = u64;

    ghost use Rattle.action_read.specs.Actions.{term_in};

    ghost reading = { term_in };

    fn read(_alloc: Global, value: &Value<'_>) -> Result<u64, FieldFault> {
        read_number_below(SLOT_LIMIT, value)
    }
}

/// A list of entries, each with a name of its own.
pub struct Distinct<K>(PhantomData<K>);

impl<K: Kind> Kind for Distinct<K>
where
    K::Entry: Named,
{
    type Entry = Listed<K::Entry>;

    ghost use Rattle.json_fields.specs.Entries.{without_place};
    ghost use Rattle.json_fields.specs.Lists.{distinct_list_in};
    ghost use Rattle.tx_records.specs.declared.limits.TheConstants.{LIST_LIMIT};

    ghost reading = { λ d. without_place (distinct_list_in K.Entry.Name.order K.Entry.name LIST_LIMIT K.reading d) };

    fn read(alloc: Global, value: &Value<'_>) -> Result<Listed<K::Entry>, FieldFault> {
        read_distinct_list::<K>(alloc, LIST_LIMIT, value).map_err(|e| e.fault)
    }
}

/// A list of credentials, each once.
pub struct Credentials;

impl Kind for Credentials {
    type Entry = CredentialList;

    ghost use Rattle.action_read.specs.Actions.{credentials_in};

    ghost reading = { credentials_in };

    fn read(alloc: Global, value: &Value<'_>) -> Result<CredentialList, FieldFault> {
        let keys = Distinct::<Credential>::read(alloc, value)?;
        Ok(CredentialList::from_vec(alloc, keys.into_vec())?)
    }
}
