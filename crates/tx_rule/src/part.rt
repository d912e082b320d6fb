ghost use Rattle.std.specs.Prelude.{◌≡◌};
ghost use Rattle.tx_rule.specs.Parts.{cert_of_part};

use cert_deleg::account::{AccountAct, AccountCert};
use cert_deleg::of_book_records::PoolTerms;
use cert_deleg::pool::{PoolAct, PoolCert};
use govcert::cold_key::ColdKeyCert;
use govcert::drep::{DrepAct, DrepCert};
use tx_records::Cert;
use tx_records::of_gov_actions::HotState;

/// A certificate, by the part of the rules that judges it.
#[derive(Clone, Copy)]
pub enum CertPart {
    Account(AccountCert),
    Pool(PoolCert),
    Drep(DrepCert),
    ColdKey(ColdKeyCert),
}

/// The part of the rules that judges a certificate, with what it says.
pub fn part_of(c: &Cert) -> CertPart
    ensures { cert_of_part result ≡ c.now }
{
    match *c {
        Cert::AccountReg {
            cred,
            deposit,
            pool,
            drep,
        } => {
            let act = AccountAct::Register {
                deposit,
                pool,
                drep,
            };
            CertPart::Account(AccountCert { cred, act })
        }
        Cert::AccountUnreg { cred, refund } => {
            let act = AccountAct::End { refund };
            CertPart::Account(AccountCert { cred, act })
        }
        Cert::Delegate { cred, pool, drep } => {
            let act = AccountAct::Delegate { pool, drep };
            CertPart::Account(AccountCert { cred, act })
        }
        Cert::PoolReg {
            pool,
            cost,
            pledge,
            margin,
            account,
            key,
        } => {
            let terms = PoolTerms {
                cost,
                pledge,
                margin,
                account,
                key,
            };
            let act = PoolAct::Register { terms };
            CertPart::Pool(PoolCert { pool, act })
        }
        Cert::PoolRetire { pool, epoch } => {
            let act = PoolAct::Retire { epoch };
            CertPart::Pool(PoolCert { pool, act })
        }
        Cert::DrepReg { cred, deposit } => {
            let act = DrepAct::Register { deposit };
            CertPart::Drep(DrepCert { cred, act })
        }
        Cert::DrepUnreg { cred, refund } => {
            let act = DrepAct::End { refund };
            CertPart::Drep(DrepCert { cred, act })
        }
        Cert::DrepUpdate { cred } => {
            let act = DrepAct::Update;
            CertPart::Drep(DrepCert { cred, act })
        }
        Cert::HotAuth { cold, hot } => {
            let to = HotState::Hot(hot);
            CertPart::ColdKey(ColdKeyCert { cold, to })
        }
        Cert::HotResign { cold } => {
            let to = HotState::Resigned;
            CertPart::ColdKey(ColdKeyCert { cold, to })
        }
    }
}
