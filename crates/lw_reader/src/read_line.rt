use crate::state::NamedPair;
use lw_region::Rect;
use lw_statements::Statement;

/// What a line says that was read: a statement; an area by its layer and its rectangles; or what is done with a window of two
/// layers, by its statements and the window that it opens.
#[derive(Drop)]
pub enum ReadLine<'a> {
    Statement(Statement<'a>),
    Area {
        layer: &'a [u8],
        rects: Vec<Rect>,
    },
    Gzz {
        statements: Vec<Statement<'a>>,
        opened: Option<NamedPair<'a>>,
    },
}
