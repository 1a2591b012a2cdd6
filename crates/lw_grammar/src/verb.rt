use lw_calls::{PairOp, RectOp};

/// The first word of a line that parts a script or a task.
#[derive(Clone, Copy, Debug, PartialEq, Eq)]
pub enum PartVerb {
    Layers,
    Screen,
    Glyph,
    Bitmap,
    Pattern,
    Task,
    End,
    Order,
    Report,
    Lock,
    Unlock,
    Hold,
    Release,
}

/// The first word of a call's line that has a layer alone after it, as `close L`.
#[derive(Clone, Copy, Debug, PartialEq, Eq)]
pub enum BareVerb {
    Close,
    Front,
    Behind,
    Activate,
    Unclip,
    Refresh,
    GetMsg,
}

/// The same with a layer and a number, as `apen L P`.
#[derive(Clone, Copy, Debug, PartialEq, Eq)]
pub enum NumberVerb {
    APen,
    BPen,
    Mode,
    Mask,
    SetRast,
    Clip,
    Hook,
}

/// The same with a layer and two numbers, as `move L DX DY`.
#[derive(Clone, Copy, Debug, PartialEq, Eq)]
pub enum PairVerb {
    Move,
    Size,
    At,
    Write,
    Read,
    Draw,
    Scroll,
}

/// The same with a layer and a text, as `title L "TEXT"`.
#[derive(Clone, Copy, Debug, PartialEq, Eq)]
pub enum TextVerb {
    Text,
    Title,
}

/// The first word of a line that is done with a window of two layers, as `gfront G`.
#[derive(Clone, Copy, Debug, PartialEq, Eq)]
pub enum GzzVerb {
    Open,
    Box,
    Front,
    Behind,
    InFront,
    Close,
}

/// The first word of a script's line, by the kind of the line.
#[derive(Clone, Copy, Debug, PartialEq, Eq)]
pub enum Verb {
    Part(PartVerb),
    Bare(BareVerb),
    Number(NumberVerb),
    Pair(PairVerb),
    Text(TextVerb),
    /// `orrect`, and its kin.
    Rect(RectOp),
    /// `orregion`, and its kin.
    Region(PairOp),
    ClearRegion,
    Create,
    Open,
    InFront,
    Box,
    Which,
    Fill,
    ScrollRaster,
    Put,
    Blit,
    EndRefresh,
    /// `area`, which leaves every pixel of a polygon.
    Area,
    /// `areapat`, which leaves those of a pattern.
    AreaPattern,
    /// `gopen`, and its kin.
    Gzz(GzzVerb),
}
