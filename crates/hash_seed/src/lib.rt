//! A seed of hash tables: a hasher to which two numbers were fed.
#![tactic(auto)]

ghost use Rattle.std.specs.Prelude.{◌≡◌, IfOk};
ghost use Rattle.hash_seed.specs.Seeds.{IsSeed, seed_of};

use std::hash::{BuildHasher, DefaultHasher, Hasher};
use std::io;
use std::random::RandomSource;

/// A seed of hash tables, whose hash is SipHash. Any two seeds give the same answers.
#[derive(Clone, Copy, Drop)]
pub struct HashSeed {
    initial: DefaultHasher,
}

impl HashSeed {
    /// The seed of two numbers, which whoever chooses the keys should not know.
    pub fn new(first: u64, second: u64) -> HashSeed
        ensures { result ≡ seed_of first second }
    {
        let mut initial = DefaultHasher::new();
        initial.write_u64(first);
        initial.write_u64(second);
        HashSeed { initial }
    }

    /// The seed of 16 random bytes of the system. An error: the system gives none.
    pub fn random(rt: &impl RandomSource) -> io::Result<HashSeed>
        ensures { IfOk result IsSeed }
    {
        let mut bytes = [0; 16];
        rt.fill_bytes(&mut bytes)?;
        let both = u128::from_le_bytes(bytes);
        let first = (both & 0xFFFF_FFFF_FFFF_FFFF) as u64;
        Ok(HashSeed::new(first, (both >> 64) as u64))
    }
}

impl BuildHasher for HashSeed {
    type Hasher = DefaultHasher;

    ghost build_hasher = { λ s. s.initial };

    fn build_hasher(&self) -> DefaultHasher {
        self.initial
    }
}
