// Laws on ids and their texts.
ghost use Rattle.std.specs.Prelude.{◌≡◌, ◌↔◌, ℕ, List};
ghost use Rattle.gov_ids.specs.declared.Account.{Account};
ghost use Rattle.gov_ids.specs.declared.ActionId.{ActionId};
ghost use Rattle.gov_ids.specs.declared.Address.{Address};
ghost use Rattle.gov_ids.specs.declared.Credential.{Credential};
ghost use Rattle.gov_ids.specs.declared.Drep.{Drep};
ghost use Rattle.gov_ids.specs.declared.OutRef.{OutRef};
ghost use Rattle.gov_ids.specs.declared.PoolId.{PoolId};
ghost use Rattle.gov_ids.specs.declared.Voter.{Voter};
ghost use Rattle.gov_ids.specs.Laws.{IsHash, IsCredential, IsAccount, IsAddress, IsOutRef, IsActionId, IsPoolId, IsDrep, IsVoter, SpellsHash, SpellsCredential, SpellsAccount, SpellsAddress, SpellsOutRef, SpellsActionId, SpellsPoolId, SpellsDrep, SpellsVoter};
ghost use Rattle.gov_ids.specs.Spelling.{hash_of, credential_of, account_of, address_of, ref_of, action_id_of, pool_of, drep_of, voter_of, hash_text, credential_text, account_text, address_text, ref_text, action_id_text, pool_text, drep_text, voter_text};

/// A law: the printed text of each id reads as that id.
pub fn printed_texts_read_back()
    ensures hash { (n : ℕ) (h : List ℕ) → IsHash n h → hash_of n (hash_text h) ≡ Ok h }
    ensures credential { (c : Credential) → IsCredential c → credential_of (credential_text c) ≡ Some c }
    ensures account { (a : Account) → IsAccount a → account_of (account_text a) ≡ Some a }
    ensures address { (a : Address) → IsAddress a → address_of (address_text a) ≡ Some a }
    ensures output { (r : OutRef) → IsOutRef r → ref_of (ref_text r) ≡ Some r }
    ensures action { (a : ActionId) → IsActionId a → action_id_of (action_id_text a) ≡ Some a }
    ensures pool { (p : PoolId) → IsPoolId p → pool_of (pool_text p) ≡ Some p }
    ensures drep { (d : Drep) → IsDrep d → drep_of (drep_text d) ≡ Some d }
    ensures voter { (v : Voter) → IsVoter v → voter_of (voter_text v) ≡ Some v }
{}

/// A law: a text reads as an id if and only if it spells that id.
pub fn texts_that_read_are_spelled()
    ensures hash { (n : ℕ) (text h : List ℕ) → (hash_of n text ≡ Ok h) ↔ SpellsHash n text h }
    ensures credential { (text : List ℕ) (c : Credential) → (credential_of text ≡ Some c) ↔ SpellsCredential text c }
    ensures account { (text : List ℕ) (a : Account) → (account_of text ≡ Some a) ↔ SpellsAccount text a }
    ensures address { (text : List ℕ) (a : Address) → (address_of text ≡ Some a) ↔ SpellsAddress text a }
    ensures output { (text : List ℕ) (r : OutRef) → (ref_of text ≡ Some r) ↔ SpellsOutRef text r }
    ensures action { (text : List ℕ) (a : ActionId) → (action_id_of text ≡ Some a) ↔ SpellsActionId text a }
    ensures pool { (text : List ℕ) (p : PoolId) → (pool_of text ≡ Some p) ↔ SpellsPoolId text p }
    ensures drep { (text : List ℕ) (d : Drep) → (drep_of text ≡ Some d) ↔ SpellsDrep text d }
    ensures voter { (text : List ℕ) (v : Voter) → (voter_of text ≡ Some v) ↔ SpellsVoter text v }
{}
