ghost use Rattle.json_tree.specs.View.{view};
ghost use Rattle.json_fields.specs.Reads.{Reads};
ghost use Rattle.record_read.specs.Certs.{account_reg_in, account_unreg_in, cert_of_name, deposit_in, delegate_in, drep_named_in, drep_reg_in, drep_unreg_in, drep_update_in, hot_auth_in, hot_resign_in, pool_named_in, pool_reg_in, pool_retire_in, refund_in, cred_in};

use coin_frac::Unit;
use gov_ids::{Account, Credential, Drep, PoolId};
use json_fields::{FieldFault, Kind, field, maybe, needed, read_text};
use json_tree::Value;
use std::alloc::Global;
use tx_records::Cert;

/// A certificate.
pub struct CertEntry;

impl Kind for CertEntry {
    type Entry = Cert;

    ghost use Rattle.record_read.specs.Certs.{cert_in};

    ghost reading = { cert_in };

    fn read(alloc: Global, value: &Value<'_>) -> Result<Cert, FieldFault> {
        let name = read_text(field(value, "cert")?)?;
        cert_of_name(alloc, name, value)
    }
}

/// The certificate of this name.
fn cert_of_name(alloc: Global, name: &str, object: &Value<'_>) -> Result<Cert, FieldFault>
    ensures { Reads result (cert_of_name name.now (view object.now)) }
{
    match name {
        "account-reg" => account_reg(alloc, object),
        "account-unreg" => account_unreg(alloc, object),
        "delegate" => delegate(alloc, object),
        "pool-reg" => pool_reg(alloc, object),
        "pool-retire" => pool_retire(alloc, object),
        "drep-reg" => drep_reg(alloc, object),
        "drep-unreg" => drep_unreg(alloc, object),
        "drep-update" => drep_update(alloc, object),
        "hot-auth" => hot_auth(alloc, object),
        "hot-resign" => hot_resign(alloc, object),
        _ => Err(FieldFault::OutOfRange),
    }
}

fn cred(alloc: Global, object: &Value<'_>) -> Result<Credential, FieldFault>
    ensures { Reads result (cred_in (view object.now)) }
{
    needed::<Credential>(alloc, object, "cred")
}

/// A deposit that is stated, in lovelace.
fn deposit(alloc: Global, object: &Value<'_>) -> Result<Option<u64>, FieldFault>
    ensures { Reads result (deposit_in (view object.now)) }
{
    maybe::<u64>(alloc, object, "deposit")
}

/// A refund that is stated, in lovelace.
fn refund(alloc: Global, object: &Value<'_>) -> Result<Option<u64>, FieldFault>
    ensures { Reads result (refund_in (view object.now)) }
{
    maybe::<u64>(alloc, object, "refund")
}

/// The pool that stake is delegated to.
fn pool_named(alloc: Global, object: &Value<'_>) -> Result<Option<PoolId>, FieldFault>
    ensures { Reads result (pool_named_in (view object.now)) }
{
    maybe::<PoolId>(alloc, object, "pool")
}

/// The DRep that the vote is delegated to.
fn drep_named(alloc: Global, object: &Value<'_>) -> Result<Option<Drep>, FieldFault>
    ensures { Reads result (drep_named_in (view object.now)) }
{
    maybe::<Drep>(alloc, object, "drep")
}

#[tactic(auto, unfolding(crate::specs::Certs::account_reg_in))]
fn account_reg(alloc: Global, object: &Value<'_>) -> Result<Cert, FieldFault>
    ensures { Reads result (account_reg_in (view object.now)) }
{
    let cred = cred(alloc, object)?;
    let deposit = deposit(alloc, object)?;
    let pool = pool_named(alloc, object)?;
    let drep = drep_named(alloc, object)?;
    Ok(Cert::AccountReg {
        cred,
        deposit,
        pool,
        drep,
    })
}

#[tactic(auto, unfolding(crate::specs::Certs::account_unreg_in))]
fn account_unreg(alloc: Global, object: &Value<'_>) -> Result<Cert, FieldFault>
    ensures { Reads result (account_unreg_in (view object.now)) }
{
    let cred = cred(alloc, object)?;
    let refund = refund(alloc, object)?;
    Ok(Cert::AccountUnreg { cred, refund })
}

/// It names a pool, a DRep or both.
#[tactic(auto, unfolding(crate::specs::Certs::delegate_in))]
fn delegate(alloc: Global, object: &Value<'_>) -> Result<Cert, FieldFault>
    ensures { Reads result (delegate_in (view object.now)) }
{
    let cred = cred(alloc, object)?;
    let pool = pool_named(alloc, object)?;
    let drep = drep_named(alloc, object)?;
    if pool.is_none() && drep.is_none() {
        return Err(FieldFault::OutOfRange);
    }
    Ok(Cert::Delegate { cred, pool, drep })
}

#[tactic(auto, unfolding(crate::specs::Certs::pool_reg_in))]
fn pool_reg(alloc: Global, object: &Value<'_>) -> Result<Cert, FieldFault>
    ensures { Reads result (pool_reg_in (view object.now)) }
{
    let pool = needed::<PoolId>(alloc, object, "pool")?;
    let cost = needed::<u64>(alloc, object, "cost")?;
    let pledge = needed::<u64>(alloc, object, "pledge")?;
    let margin = needed::<Unit>(alloc, object, "margin")?;
    let account = needed::<Account>(alloc, object, "account")?;
    let key = maybe::<[u8; 32]>(alloc, object, "key")?;
    Ok(Cert::PoolReg {
        pool,
        cost,
        pledge,
        margin,
        account,
        key,
    })
}

#[tactic(auto, unfolding(crate::specs::Certs::pool_retire_in))]
fn pool_retire(alloc: Global, object: &Value<'_>) -> Result<Cert, FieldFault>
    ensures { Reads result (pool_retire_in (view object.now)) }
{
    let pool = needed::<PoolId>(alloc, object, "pool")?;
    let epoch = needed::<u64>(alloc, object, "epoch")?;
    Ok(Cert::PoolRetire { pool, epoch })
}

#[tactic(auto, unfolding(crate::specs::Certs::drep_reg_in))]
fn drep_reg(alloc: Global, object: &Value<'_>) -> Result<Cert, FieldFault>
    ensures { Reads result (drep_reg_in (view object.now)) }
{
    let cred = cred(alloc, object)?;
    let deposit = deposit(alloc, object)?;
    Ok(Cert::DrepReg { cred, deposit })
}

#[tactic(auto, unfolding(crate::specs::Certs::drep_unreg_in))]
fn drep_unreg(alloc: Global, object: &Value<'_>) -> Result<Cert, FieldFault>
    ensures { Reads result (drep_unreg_in (view object.now)) }
{
    let cred = cred(alloc, object)?;
    let refund = refund(alloc, object)?;
    Ok(Cert::DrepUnreg { cred, refund })
}

#[tactic(auto, unfolding(crate::specs::Certs::drep_update_in))]
fn drep_update(alloc: Global, object: &Value<'_>) -> Result<Cert, FieldFault>
    ensures { Reads result (drep_update_in (view object.now)) }
{
    let cred = cred(alloc, object)?;
    Ok(Cert::DrepUpdate { cred })
}

#[tactic(auto, unfolding(crate::specs::Certs::hot_auth_in))]
fn hot_auth(alloc: Global, object: &Value<'_>) -> Result<Cert, FieldFault>
    ensures { Reads result (hot_auth_in (view object.now)) }
{
    let cold = needed::<Credential>(alloc, object, "cold")?;
    let hot = needed::<Credential>(alloc, object, "hot")?;
    Ok(Cert::HotAuth { cold, hot })
}

#[tactic(auto, unfolding(crate::specs::Certs::hot_resign_in))]
fn hot_resign(alloc: Global, object: &Value<'_>) -> Result<Cert, FieldFault>
    ensures { Reads result (hot_resign_in (view object.now)) }
{
    let cold = needed::<Credential>(alloc, object, "cold")?;
    Ok(Cert::HotResign { cold })
}
