use hash_seed::HashSeed;
use std::alloc::Global;

/// Who shares a run's counts: workers in `rt`'s threads, each of which enters the gate first; and
/// the seed of the run's hash tables, on which no answer depends.
#[derive(Drop)]
pub struct Crew<'a, T, G> {
    pub alloc: Global,
    pub rt: &'a T,
    pub gate: &'a G,
    pub seed: HashSeed,
}
