ghost use Rattle.lw_canonical.specs.Canonical.{CanonicalTextsReadBack};
ghost use Rattle.lw_canonical.specs.Pairs.{SpelledPlansKeepPairsApart};

/// A law of the grammar of scripts, which does nothing: the canonical text of a plan that some
/// input spells is itself a script alone that spells this plan, without an order.
pub fn canonical_texts_read_back()
    ensures { CanonicalTextsReadBack }
{}

/// A law of the grammar of scripts, which does nothing: the plan of each input that bytes spell
/// keeps its windows of two layers apart from all else, so that they stay together in every run.
pub fn spelled_plans_keep_pairs_apart()
    ensures { SpelledPlansKeepPairsApart }
{}
