ghost use Rattle.lw_fills.specs.Fills.{FillsAreOneDrawing, AreasAreOneDrawing};
ghost use Rattle.lw_fills.specs.AreaLines.{AreaLinesAreOneDrawing};

/// Fills of rectangles of which no two have a pixel in common, made one after another, are one drawing of all their pixels, in
/// every mode and through every mask: which pixels are drawable has nothing to do with pens.
pub fn fills_are_one_drawing()
    ensures { FillsAreOneDrawing }
{}

/// Fills of the rectangles of an area, made one after another, are one drawing of the pixels that are inside the polygon and
/// whose bit of the pattern is 1.
pub fn areas_are_one_drawing()
    ensures { AreasAreOneDrawing }
{}

/// The line of an area gives its task such fills, which in no group are a group of their own that holds the layer.
pub fn area_lines_are_one_drawing()
    ensures { AreaLinesAreOneDrawing }
{}
