use replay_loop::GenesisCause;

/// How far an explanation is.
#[derive(Drop)]
pub(crate) enum Place<R: Drop> {
    /// Before any reading.
    Unbegun,
    /// Over a state.
    Over(R),
    /// Behind a first reading that gave no state.
    Failed(GenesisCause),
}
