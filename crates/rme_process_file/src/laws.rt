//! The meaning of the look-ups for a world's words.
//!
//! Each function here does nothing: its contract is a law of `specs/Sound.antt`, proved by the lemma of `proofs/` that
//! the docstring names.

ghost use Rattle.rme_process_file.specs.Sound.{SectionsLaw, SettledLaw, SoundLaw};

/// The words of every world are sound, also between any two steps (lemma `sound_world`): the words that `first_damage`
/// answers are those of no world.
pub fn world_words_are_sound()
    ensures { SoundLaw }
{}

/// The cells of a lock are settled if and only if they are in the abstract state (lemma `settled_world`).
pub fn settled_cells_agree()
    ensures { SettledLaw }
{}

/// The number of finished sections is that of the history's entries of the lock (lemma `sections_world`).
pub fn section_counts_agree()
    ensures { SectionsLaw }
{}
