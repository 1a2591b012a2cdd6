ghost use Rattle.lw_cliprects.specs.Parts.{OneCover};

/// What the definitions give for a layer under one cover, worked out by hand.
pub fn one_cover_law()
    ensures { OneCover }
{}
