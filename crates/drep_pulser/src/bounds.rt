ghost use Rattle.std.specs.Prelude.{◌≡◌, ◌&&◌, option_map};
ghost use Rattle.gov_ids.specs.declared.Credential.{Credential};
ghost use Rattle.gov_ids.specs.Orders.{credential_cmp};
ghost use Rattle.maps.specs.Maps.{comes_past};
ghost use Rattle.drep_pulser.specs.Parts.{is_beyond};

use gov_ids::Credential;

// The later of two bounds; none is no bound.
pub(crate) fn later(a: Option<Credential>, b: Option<&Credential>) -> Option<Credential>
    ensures { (c : Credential) → comes_past credential_cmp result c
        ≡ (comes_past credential_cmp a c && comes_past credential_cmp (option_map (λ k. k.now) b.entry) c) }
{
    let Some(y) = b else {
        return a;
    };
    let Some(x) = a else {
        return Some(*y);
    };
    if y.cmp(&x).is_lt() { Some(x) } else { Some(*y) }
}

// Whether a credential comes after the last one of a range; none is no bound.
pub(crate) fn is_beyond(until: Option<&Credential>, c: &Credential) -> bool
    ensures { result ≡ is_beyond (option_map (λ k. k.now) until.entry) c.now }
{
    match until {
        Some(last) => last.cmp(c).is_lt(),
        None => false,
    }
}
