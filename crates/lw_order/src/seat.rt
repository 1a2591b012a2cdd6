use crate::view::View;
use std::marker::Model;

/// A token of one order word, with no bytes: a history that its holder knows, and roles that it alone has. Contracts see
/// the word, the history and the roles.
#[derive(Drop)]
pub struct Seat {
    pub(crate) token: atomic_table::Seat<(), View>,
}

impl Model for Seat {
    ghost use Rattle.std.specs.Prelude.{◌≡◌, []};
    ghost use Rattle.lw_order.specs.Seen.{SeenSeat};

    ghost Value = { SeenSeat };

    ghost view = { λ s. record { word = s.token.table_id; history = s.token.me.0.history; roles = s.token.me.0.roles } };

    ghost invariant = { λ s. (s.token.me.1 ≡ []) × (s.token.me.0.olds ≡ []) };
}
