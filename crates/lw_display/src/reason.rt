use lw_grammar::Reason;

/// Why a line of a show is refused.
#[derive(Clone, Copy, Debug, PartialEq, Eq)]
pub enum ShowReason {
    /// For a reason that lines of scripts have too.
    Line(Reason),
    /// It ends a scene whose order isn't legal.
    BadOrder,
}
