ghost use Rattle.lw_stack.specs.Laws.{ListLaw, ShownListLaw, ElsewhereLaw};

/// A law of the list, which does nothing: where it stands for a desk's LayerInfo, it tells the top layer of each place, and so
/// where each layer is shown.
pub fn list_law()
    ensures { ListLaw }
{}

/// A law of the list of what is shown of a layer, which does nothing: it has the places where the layer is on top, and is
/// canonical.
pub fn shown_list_law()
    ensures { ShownListLaw }
{}

/// A law of two lists, which does nothing: where they differ in one slot alone, in its bounds or in its place, the same layer is
/// on top outside both of its bounds.
pub fn elsewhere_law()
    ensures { ElsewhereLaw }
{}
