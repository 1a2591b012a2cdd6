ghost use Rattle.lw_gzz.specs.Apart.{IsApart};
ghost use Rattle.lw_gzz.specs.Examples.{filled_pair};

/// A worked case, which does nothing: a plan of one task that opens a pair of windows in a group and then fills the inner one
/// keeps its pair apart.
pub fn filled_pair_is_apart()
    ensures { IsApart filled_pair }
{}
