ghost use Rattle.std.specs.Prelude.{◌≡◌, ◌+◌, ◌||◌, ◌<◌, ◌≤◌, ◌^◌, OnOk, OnErr, if◌then◌else◌, map, nat_le, nat_lt};
ghost use Rattle.book_records.specs.Pools.{is_key_of_other};
ghost use Rattle.cert_deleg.specs.Certs.{cert_of_pool};
ghost use Rattle.gov_ids.specs.Orders.{pool_cmp};
ghost use Rattle.ledger_model.specs.CertRules.{cert_checks};
ghost use Rattle.ledger_model.specs.Changes.{changed_by};
ghost use Rattle.ledger_model.specs.Checks.{answer_of, at_place, first_among};
ghost use Rattle.ledger_model.specs.Draft.{draft_with};
ghost use Rattle.ledger_model.specs.Flows.{flows_of_cert, hand, sink, source, sum_at};
ghost use Rattle.ledger_model.specs.Ledger.{is_pool, params_of};
ghost use Rattle.live_ledger.specs.Moved.{HasMoved, IsCertified};
ghost use Rattle.maps.specs.Maps.{value_at};
ghost use Rattle.maps.specs.Words.{some_and};
ghost use Rattle.rule_checks.specs.Answered.{IsAnswered};
ghost use Rattle.rule_checks.specs.Told.{told_with};
ghost use Rattle.tx_records.specs.declared.cert.Cert.TheVariants.{PoolReg, PoolRetire};

use book_records::{Pool, PoolTerms};
use gov_ids::PoolId;
use live_ledger::Draft;
use no_memory::NoMemory;
use rule_checks::{Check, Told, answer_at, as_fault, first_of};
use tx_records::rules::{
    POOL_COST_TOO_LOW, POOL_KEY_IN_USE, POOL_UNKNOWN, POOL_WRONG_NETWORK, RETIREMENT_EPOCH_WRONG,
};
use tx_records::{Rule, TxFault};

/// A certificate of a pool. (POOL of the formal specification)
#[derive(Clone, Copy)]
pub struct PoolCert {
    pub pool: PoolId,
    pub act: PoolAct,
}

/// What a certificate asks of its pool.
#[derive(Clone, Copy)]
pub enum PoolAct {
    /// It is registered, or its future terms are set.
    Register { terms: PoolTerms },
    /// It retires: it is gone when this epoch begins.
    Retire { epoch: u64 },
}

/// Registers or retires a pool, as the certificate at this index says, or refuses with the first
/// rule that it breaks. (POOL of the formal specification)
pub fn cert(d: &mut Draft, place: u32, c: &PoolCert) -> Result<(), TxFault>
    requires few { d.old.changes ≤ 2 ^ 31 }
    ensures rule { IsAnswered (first_among (map (at_place place) (cert_checks d.old.start d.old.ledger (cert_of_pool c.now)))) result }
    ensures ledger { OnOk result (d.new.ledger ≡ changed_by (cert_of_pool c.now) d.old.ledger) }
    ensures moved { OnOk result (HasMoved (flows_of_cert d.old.ledger (cert_of_pool c.now)) d.old d.new) }
    ensures start { d.new.start ≡ d.old.start }
    ensures few { d.new.changes ≤ d.old.changes + 1 }
{
    let found = d.pool(&c.pool);
    as_fault(answer_at(check(d, c, &found), place as usize))?;
    change(d, c, found)?;
    Ok(())
}

/// Adds every rule that the certificate at this index breaks; one that breaks none changes the
/// draft as `cert` does, one that breaks a rule changes nothing. `NoMemory`: drop the draft.
pub fn tell_cert(d: &mut Draft, place: u32, c: &PoolCert, told: &mut Told) -> Result<(), NoMemory>
    requires few { d.old.changes ≤ 2 ^ 31 }
    ensures rules { OnOk result (told.new ≡
        told_with (map (at_place place) (cert_checks d.old.start d.old.ledger (cert_of_pool c.now))) told.old) }
    ensures ledger { OnOk result (d.new.ledger ≡ draft_with d.old.start d.old.ledger (cert_of_pool c.now)) }
    ensures start { d.new.start ≡ d.old.start }
    ensures few { d.new.changes ≤ d.old.changes + 1 }
{
    let found = d.pool(&c.pool);
    tell(d, place as usize, c, &found, told)?;
    change_if_allowed(d, c, found)
}

/// What a certificate gives back, and what it pays, in lovelace, by the draft before it; also one
/// that breaks a rule.
pub fn moved_by(d: &Draft, c: &PoolCert) -> (u64, u64)
    ensures refund { result.0 ≡ sum_at sink hand (flows_of_cert d.now.ledger (cert_of_pool c.now)) }
    ensures deposit { result.1 ≡ sum_at source hand (flows_of_cert d.now.ledger (cert_of_pool c.now)) }
{
    match &c.act {
        PoolAct::Register { .. } => (0, paid_for(d, &c.pool)),
        PoolAct::Retire { .. } => (0, 0),
    }
}

/// The first rule that it breaks, if any, without its index. The pool was found so.
fn check(d: &Draft, c: &PoolCert, found: &Option<Pool>) -> Result<(), Rule>
    requires found { found.now ≡ value_at pool_cmp d.now.ledger.pools c.now.pool }
    ensures { result ≡ answer_of (cert_checks d.now.start d.now.ledger (cert_of_pool c.now)) }
{
    match &c.act {
        PoolAct::Register { terms } => first_of(&terms_checks(d, &c.pool, terms)),
        PoolAct::Retire { epoch } => first_of(&retirement_checks(d, &c.pool, found, *epoch)),
    }
}

/// Adds every rule that it breaks, at this index.
fn tell(
    d: &Draft,
    place: usize,
    c: &PoolCert,
    found: &Option<Pool>,
    told: &mut Told,
) -> Result<(), NoMemory>
    requires place { place < 2 ^ 32 }
    requires found { found.now ≡ value_at pool_cmp d.now.ledger.pools c.now.pool }
    ensures { OnOk result (told.new ≡
        told_with (map (at_place place) (cert_checks d.now.start d.now.ledger (cert_of_pool c.now))) told.old) }
{
    match &c.act {
        PoolAct::Register { terms } => told.add_at(place, &terms_checks(d, &c.pool, terms)),
        PoolAct::Retire { epoch } => told.add_at(
            place,
            &retirement_checks(d, &c.pool, found, *epoch),
        ),
    }
}

/// What it changes, whether it breaks a rule or not.
fn change(d: &mut Draft, c: &PoolCert, found: Option<Pool>) -> Result<(), NoMemory>
    requires few { d.old.changes < 2 ^ 32 }
    requires found { found ≡ value_at pool_cmp d.old.ledger.pools c.now.pool }
    ensures ok { OnOk result (IsCertified (cert_of_pool c.now) d.old d.new) }
    ensures err { OnErr result (d.new ≡ d.old) }
{
    match &c.act {
        PoolAct::Register { terms } => {
            // a new pool pays it; an old one gets these terms at the next boundary
            let due = d.start().params().pool_deposit;
            d.register_found_pool(c.pool, found, *terms, due)?;
            Ok(())
        }
        PoolAct::Retire { epoch } => retire(d, c.pool, found, *epoch),
    }
}

/// What it changes; nothing, if it breaks a rule.
fn change_if_allowed(d: &mut Draft, c: &PoolCert, found: Option<Pool>) -> Result<(), NoMemory>
    requires few { d.old.changes < 2 ^ 32 }
    requires found { found ≡ value_at pool_cmp d.old.ledger.pools c.now.pool }
    ensures ledger { OnOk result (d.new.ledger ≡ draft_with d.old.start d.old.ledger (cert_of_pool c.now)) }
    ensures start { d.new.start ≡ d.old.start }
    ensures few { d.new.changes ≤ d.old.changes + 1 }
{
    match check(d, c, &found) {
        Ok(()) => change(d, c, found),
        Err(_) => Ok(()),
    }
}

/// The rules on the terms with which a pool is registered, a new one or not.
fn terms_checks(d: &Draft, pool: &PoolId, terms: &PoolTerms) -> [Check; 3]
    ensures { result ≡ cert_checks d.now.start d.now.ledger
        (PoolReg pool.now terms.now.cost terms.now.pledge terms.now.margin terms.now.account terms.now.key) }
{
    let least = d.start().params().min_pool_cost;
    let in_use = d.start().is_from_version_eleven() && is_key_in_use(d, pool, terms.key);
    [
        Check::keeping(POOL_COST_TOO_LOW, u128::from(least), terms.cost < least),
        Check::plain(
            POOL_WRONG_NETWORK,
            terms.account.network != d.start().network(),
        ),
        Check::plain(POOL_KEY_IN_USE, in_use),
    ]
}

/// Whether a key is named that another pool has.
fn is_key_in_use(d: &Draft, pool: &PoolId, key: Option<[u8; 32]>) -> bool
    ensures { result ≡ some_and (λ k. is_key_of_other k pool.now d.now.ledger.pools) key }
{
    match key {
        Some(named) => d.key_of_other(&named, pool),
        None => false,
    }
}

/// What the registration of a pool pays, in lovelace: its deposit, if it is not registered.
fn paid_for(d: &Draft, pool: &PoolId) -> u64
    ensures { result ≡ (if is_pool d.now.ledger pool.now then 0 else (params_of d.now.ledger).pool_deposit) }
{
    if d.pool(pool).is_some() {
        0
    } else {
        d.start().params().pool_deposit
    }
}

/// The rules on a pool's retirement: it is registered, and the epoch is 1 to eMax after this one.
fn retirement_checks(d: &Draft, pool: &PoolId, found: &Option<Pool>, epoch: u64) -> [Check; 2]
    requires found { found.now ≡ value_at pool_cmp d.now.ledger.pools pool.now }
    ensures { result ≡ cert_checks d.now.start d.now.ledger (PoolRetire pool.now epoch) }
{
    let now = d.start().epoch();
    let most = d.start().params().e_max;
    let is_wrong = is_not_within(now, u64::from(most), epoch);
    [
        Check::plain(POOL_UNKNOWN, found.is_none()),
        Check::keeping(RETIREMENT_EPOCH_WRONG, u128::from(now), is_wrong),
    ]
}

/// A pool retires with an epoch, instead of one that it chose before.
fn retire(d: &mut Draft, pool: PoolId, found: Option<Pool>, epoch: u64) -> Result<(), NoMemory>
    requires few { d.old.changes < 2 ^ 32 }
    requires found { found ≡ value_at pool_cmp d.old.ledger.pools pool }
    ensures ok { OnOk result (IsCertified (PoolRetire pool epoch) d.old d.new) }
    ensures err { OnErr result (d.new ≡ d.old) }
{
    match found {
        Some(registered) => {
            d.retire_found_pool(pool, registered, epoch)?;
            Ok(())
        }
        None => Ok(()),
    }
}

/// Whether an epoch is not one of the next epochs after this one, of which there are so many.
fn is_not_within(now: u64, most: u64, epoch: u64) -> bool
    ensures { result ≡ (nat_le epoch now || nat_lt (now + most) epoch) }
{
    epoch <= now || epoch - now > most
}
