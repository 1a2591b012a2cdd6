ghost use Rattle.lw_history.specs.Laws.{DamageIsItsHistory, TheLastEntryTells, ScrollsHurtWhatTheyBring, RunsTellDamageByHistory};

/// In every desk that a history of calls that fit reaches, exactly those pixels of a simple layer are damaged that the history
/// hurts.
pub fn damage_is_its_history()
    ensures { DamageIsItsHistory }
{}

/// What a history hurts goes by its last entry, from what is hurt before that one.
pub fn the_last_entry_tells()
    ensures { TheLastEntryTells }
{}

/// What a ScrollRaster leaves hurt of its layer, at pixels that the layer then keeps in its inner rectangle: a drawable pixel of
/// the rectangle to which a pixel of the rectangle and of the layer is brought is hurt where that one wasn't kept or was hurt,
/// and any other as before.
pub fn scrolls_hurt_what_they_bring()
    ensures { ScrollsHurtWhatTheyBring }
{}

/// The final state of a plan's run in an order, and its report, have of each simple layer the damage that the history of that
/// order hurts.
pub fn runs_tell_damage_by_history()
    ensures { RunsTellDamageByHistory }
{}
