use crate::message::Messages;
use crate::reply::Replies;
use lw_planes::Planes;
use lw_region::Region;
use std::marker::Model;

/// A live layer as a report shows it.
#[derive(Debug, Drop)]
pub struct Seen {
    /// Where the layer is shown, in screen coordinates.
    pub visible: Region,
    /// Its damage, in layer coordinates.
    pub damage: Region,
    /// The messages of its port, if it is a window.
    pub messages: Option<Messages>,
}

/// What a run leaves: the screen, the live layers, and the replies.
#[derive(Debug, Drop)]
pub struct Final {
    /// The screen's pens.
    pub planes: Planes,
    /// What is seen of each slot's layer, where it is live.
    pub slots: Vec<Option<Seen>>,
    /// The replies of each task.
    pub replies: Vec<Replies>,
}

impl Model for Final {
    ghost use Rattle.lw_calls.specs.Final.{Final as FinalView};

    ghost Value = { FinalView };

    ghost view = { λ f. record { planes = f.planes; slots = f.slots.items; replies = f.replies.items } };
}
