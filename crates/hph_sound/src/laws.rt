//! Laws of the invariant of states: contracts of functions that do nothing.

ghost use Rattle.hph_php.specs.Declarations.{Codes};
ghost use Rattle.hph_sound.specs.Laws.{StartIsSound, RulesKeepSoundness};

/// A run starts in a sound state.
pub fn start_is_sound()
    ensures { StartIsSound }
{}

/// What prints, what changes places and variables, what defines a constant, enters a file or declares a function keeps a state sound.
pub fn rules_keep_soundness()
    ensures { (program : Codes) → RulesKeepSoundness program }
{}
