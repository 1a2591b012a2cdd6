ghost use Rattle.std.specs.Prelude.{◌≡◌, true, length};
ghost use Rattle.lw_area.specs.Polygons.{is_point_count};
ghost use Rattle.lw_statements.specs.OwnBits.{FitKind};

use lw_area::Pattern;
use lw_calls::{Kind, PairOp, Place, RectOp};
use lw_grammar::{BareVerb, NumberVerb, PairVerb, TextVerb};
use lw_words::Digits;

/// The bounds of a rectangle, in the line's own numbers.
#[derive(Clone, Copy)]
pub struct Corners {
    pub x0: i64,
    pub y0: i64,
    pub x1: i64,
    pub y1: i64,
}

/// A place, a width and a height, in the line's own numbers.
#[derive(Clone, Copy)]
pub struct AskedBox {
    pub x: i64,
    pub y: i64,
    pub w: i64,
    pub h: i64,
}

/// A layer as a line asks for it beside its bounds or its box, in the line's own numbers. The call that the line is has a `Make`
/// of them.
#[derive(Clone, Copy)]
pub struct NewLayer {
    pub kind: Kind,
    pub place: Place,
    pub backdrop: bool,
    pub hook: Option<i64>,
    /// The size of a bitmap of its own, or 0 and 0.
    pub bits_w: i64,
    pub bits_h: i64,
    pub ghost bits: { FitKind kind bits_w bits_h },
}

impl NewLayer {
    ghost use Rattle.std.specs.Prelude.{◌≡◌};
    ghost use Rattle.lw_grammar.specs.Statements.{new_without_bitmap};
    ghost use Rattle.lw_statements.specs.StatementMeaning.{new_layer_meaning};

    /// A layer without a bitmap of its own.
    pub fn without_bitmap(kind: Kind, place: Place, backdrop: bool, hook: Option<i64>) -> NewLayer
        ensures { new_layer_meaning result ≡ new_without_bitmap kind place backdrop hook }
    {
        NewLayer {
            kind,
            place,
            backdrop,
            hook,
            bits_w: 0,
            bits_h: 0,
        }
    }
}

/// A blit's places and sizes, and its minterm.
#[derive(Clone, Copy)]
pub struct AskedArea {
    pub sx: i64,
    pub sy: i64,
    pub x: i64,
    pub y: i64,
    pub w: i64,
    pub h: i64,
    pub minterm: u8,
}

/// What the line of a call asks for, without the layers that it names. Names and texts stand in the input.
#[derive(Clone, Copy)]
pub enum Act<'a> {
    /// A rectangle joined to a register.
    RegRect {
        op: RectOp,
        register: i64,
        corners: Corners,
    },
    /// The register `source` joined to the register `into`.
    RegPair {
        op: PairOp,
        source: i64,
        into: i64,
    },
    /// A register emptied.
    RegClear(i64),
    Create {
        corners: Corners,
        asked: NewLayer,
    },
    Open {
        at: AskedBox,
        asked: NewLayer,
        framed: bool,
        nocare: bool,
        /// The set of the classes of messages: class k is bit k.
        classes: u8,
        title: &'a [u8],
    },
    InFront,
    Box(AskedBox),
    Which {
        x: i64,
        y: i64,
    },
    Bare(BareVerb),
    Number(NumberVerb, i64),
    Pair(PairVerb, i64, i64),
    Text(TextVerb, &'a [u8]),
    Fill(Corners),
    ScrollRaster {
        dx: i64,
        dy: i64,
        corners: Corners,
    },
    Put {
        bitmap: &'a [u8],
        area: AskedArea,
    },
    Blit(AskedArea),
    EndRefresh {
        full: bool,
    },
}

/// The layers that a call's line names, from left to right.
#[derive(Clone, Copy)]
pub enum Layers<'a> {
    Nothing,
    One(&'a [u8]),
    Two(&'a [u8], &'a [u8]),
}

/// What a line of a script says that stands for itself. Names, texts and digits stand in the input.
#[derive(Drop)]
pub enum Statement<'a> {
    /// The script has version 2.
    Layers,
    Screen {
        width: i64,
        height: i64,
        depth: i64,
    },
    /// A glyph's code, and the digits of its 8 rows.
    Glyph {
        code: u8,
        digits: Digits<'a>,
    },
    /// A bitmap, whose rows then follow.
    Bitmap {
        name: &'a [u8],
        width: i64,
        height: i64,
        depth: i64,
    },
    /// The digits of a row of a bitmap.
    Row(Digits<'a>),
    /// An area pattern.
    Pattern {
        name: &'a [u8],
        pattern: Pattern,
    },
    /// A task begins.
    Task(&'a [u8]),
    /// A task ends.
    End,
    /// Numbers of an order follow.
    Order,
    /// Numbers of an order.
    Numbers(Vec<i64>),
    /// A report follows.
    Report,
    Call {
        layers: Layers<'a>,
        act: Act<'a>,
    },
    Lock(&'a [u8]),
    Unlock(&'a [u8]),
    Hold,
    Release,
}

/// A point of an area, in the line's own numbers.
#[derive(Clone, Copy)]
pub struct AskedPoint {
    pub x: i64,
    pub y: i64,
}

/// An area as a line has it: on a layer, with the pattern of this name, or with none, and of 3 to 32 points.
#[derive(Drop)]
pub struct AskedPolygon<'a> {
    pub layer: &'a [u8],
    pub pattern: Option<&'a [u8]>,
    pub points: Vec<AskedPoint>,
    pub ghost count: { is_point_count (length points.items) ≡ true },
}

/// What a line does with a window of two layers. Names and texts stand in the input, and boxes are in the line's own numbers.
#[derive(Clone, Copy)]
pub enum GzzAct<'a> {
    Open {
        inner: &'a [u8],
        /// That of the inner layer.
        kind: Kind,
        place: Place,
        at: AskedBox,
        /// The set of the classes of messages: class k is bit k.
        classes: u8,
        title: &'a [u8],
    },
    Box(AskedBox),
    Front,
    Behind,
    /// In front of this layer.
    InFront(&'a [u8]),
    Close,
}

/// What a line of a script says, if it isn't skipped.
#[derive(Drop)]
pub enum Line<'a> {
    Statement(Statement<'a>),
    /// An area, which stands for several statements.
    Area(AskedPolygon<'a>),
    /// What is done with the window of two layers with this outer one, which stands for several statements too.
    Gzz { outer: &'a [u8], act: GzzAct<'a> },
}

impl<'a> Statement<'a> {
    ghost use Rattle.std.specs.Prelude.{◌≡◌, [], ◌∷◌};
    ghost use Rattle.lw_grammar.specs.Statements.{CallLine};
    ghost use Rattle.lw_statements.specs.StatementMeaning.{statement_meaning, act_meaning};

    /// A call that names no layer.
    pub fn apart(act: Act<'a>) -> Statement<'a>
        ensures { statement_meaning result ≡ CallLine [] (act_meaning act.entry) }
    {
        Statement::Call {
            layers: Layers::Nothing,
            act,
        }
    }

    /// A call on one layer.
    pub fn on(layer: &'a [u8], act: Act<'a>) -> Statement<'a>
        ensures { statement_meaning result ≡ CallLine (layer.entry.now ∷ []) (act_meaning act.entry) }
    {
        Statement::Call {
            layers: Layers::One(layer),
            act,
        }
    }
}
