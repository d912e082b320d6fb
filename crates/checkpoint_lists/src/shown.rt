//! What the lines of the checkpoint of a World say.
ghost use Rattle.checkpoint_lists.specs.Shown.{ShownAreOfWorlds};

/// Does nothing. A law: the lines of the checkpoint of a World are those of what it shows.
pub fn shown_are_of_worlds()
    ensures { ShownAreOfWorlds }
{}
