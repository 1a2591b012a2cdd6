//! A law of groups: the function does nothing, and its contract is the law.

ghost use Rattle.lw_locks.specs.Groups.{OthersKeepAway};

/// Within a group no call of another task touches what the group holds.
pub fn others_keep_away()
    ensures { OthersKeepAway }
{}
