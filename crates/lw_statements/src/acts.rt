//! What the grammar asks of a line's act.
ghost use Rattle.std.specs.Prelude.{◌≡◌, ℕ, List, is_none, option_map};
ghost use Rattle.lw_grammar.specs.Statements.{CallLine};
ghost use Rattle.lw_grammar.specs.Told.{makes_super, hook_on};
ghost use Rattle.lw_grammar.specs.Script.{is_on_all, is_placing, is_activating, is_hooking, is_beginning, is_ending, are_all};
ghost use Rattle.lw_grammar.specs.Script.{is_on_one, group_allows, allows_area, is_lock_on, is_hold, fits_group};
ghost use Rattle.lw_statements.specs.StatementMeaning.{act_meaning, layers_meaning, statement_meaning};
ghost use Rattle.lw_statements.specs.GroupMeaning.{group_meaning};

use crate::statement::{Act, AskedPolygon, Layers, Statement};
use lw_calls::Kind;
use lw_grammar::{BareVerb, NumberVerb, PairVerb};
use lw_words::is_text;

/// A group that is open.
#[derive(Clone, Copy)]
pub enum OpenGroup<'a> {
    /// A lock on this layer.
    Locked(&'a [u8]),
    /// An update of this layer.
    Updating(&'a [u8]),
    /// A hold.
    Held,
}

impl Act<'_> {
    /// Whether its call makes, closes, moves or sizes a layer, or puts it elsewhere in the list.
    pub fn is_placing(&self) -> bool
        ensures { result ≡ is_placing (act_meaning self.now) }
    {
        match self {
            Act::Create { .. }
            | Act::Open { .. }
            | Act::InFront
            | Act::Box(_)
            | Act::Bare(BareVerb::Close | BareVerb::Front | BareVerb::Behind)
            | Act::Pair(PairVerb::Move | PairVerb::Size, _, _) => true,
            _ => false,
        }
    }

    /// Whether its call makes a layer the active one.
    pub fn is_activating(&self) -> bool
        ensures { result ≡ is_activating (act_meaning self.now) }
    {
        match self {
            Act::Bare(BareVerb::Activate) => true,
            _ => false,
        }
    }

    /// Whether its call gives a layer another hook.
    fn is_hooking(&self) -> bool
        ensures { result ≡ is_hooking (act_meaning self.now) }
    {
        match self {
            Act::Number(NumberVerb::Hook, _) => true,
            _ => false,
        }
    }

    /// Whether its call is on all layers.
    fn is_on_all(&self) -> bool
        ensures { result ≡ is_on_all (act_meaning self.now) }
    {
        self.is_placing() || self.is_activating() || self.is_hooking()
    }

    /// Whether it begins an update.
    pub fn is_beginning(&self) -> bool
        ensures { result ≡ is_beginning (act_meaning self.now) }
    {
        match self {
            Act::Bare(BareVerb::Refresh) => true,
            _ => false,
        }
    }

    /// Whether it ends an update.
    pub fn is_ending(&self) -> bool
        ensures { result ≡ is_ending (act_meaning self.now) }
    {
        match self {
            Act::EndRefresh { .. } => true,
            _ => false,
        }
    }
}

impl Act<'_> {
    /// Whether its line asks for a layer with a bitmap of its own.
    pub fn makes_super(&self) -> bool
        ensures { (layers : List (List ℕ)) → result ≡ makes_super (CallLine layers (act_meaning self.now)) }
    {
        match self {
            Act::Create { asked, .. } | Act::Open { asked, .. } => match asked.kind {
                Kind::SuperBitmap => true,
                Kind::Simple | Kind::Smart => false,
            },
            _ => false,
        }
    }

    /// The hook that its line names.
    pub fn hook(&self) -> Option<i64>
        ensures { (layers : List (List ℕ)) → result ≡ hook_on (CallLine layers (act_meaning self.now)) }
    {
        match self {
            Act::Create { asked, .. } | Act::Open { asked, .. } => asked.hook,
            Act::Number(NumberVerb::Hook, number) => Some(*number),
            _ => None,
        }
    }
}

impl Layers<'_> {
    /// Whether there is a layer, and each is this one.
    fn are_all(&self, layer: &[u8]) -> bool
        ensures { result ≡ are_all layer.now (layers_meaning self.now) }
    {
        match self {
            Layers::Nothing => false,
            Layers::One(first) => is_text(layer, *first),
            Layers::Two(first, second) => is_text(layer, *first) && is_text(layer, *second),
        }
    }
}

/// Whether it is a call on the one layer.
fn is_on_one(layer: &[u8], layers: &Layers<'_>, act: &Act<'_>) -> bool
    ensures { result ≡ is_on_one layer.now (layers_meaning layers.now) (act_meaning act.now) }
{
    layers.are_all(layer) && !act.is_on_all()
}

/// Whether such a call may stand in this group, or in none.
fn group_allows(group: &Option<OpenGroup<'_>>, layers: &Layers<'_>, act: &Act<'_>) -> bool
    ensures { result ≡ group_allows (option_map group_meaning group.now) (layers_meaning layers.now) (act_meaning act.now) }
{
    match group {
        None => !act.is_ending(),
        Some(OpenGroup::Locked(layer)) => {
            is_on_one(*layer, layers, act) && (!act.is_beginning() && !act.is_ending())
        }
        Some(OpenGroup::Updating(layer)) => is_on_one(*layer, layers, act) && !act.is_beginning(),
        Some(OpenGroup::Held) => act.is_on_all(),
    }
}

/// Whether the group is a lock on this layer.
fn is_lock_on(layer: &[u8], group: &Option<OpenGroup<'_>>) -> bool
    ensures { result ≡ is_lock_on layer.now (option_map group_meaning group.now) }
{
    match group {
        Some(OpenGroup::Locked(locked)) => is_text(layer, *locked),
        _ => false,
    }
}

/// Whether the group is a hold.
fn is_hold(group: &Option<OpenGroup<'_>>) -> bool
    ensures { result ≡ is_hold (option_map group_meaning group.now) }
{
    match group {
        Some(OpenGroup::Held) => true,
        _ => false,
    }
}

/// Whether no group is open.
fn is_closed(group: &Option<OpenGroup<'_>>) -> bool
    ensures { result ≡ is_none (option_map group_meaning group.now) }
{
    group.is_none()
}

impl Statement<'_> {
    /// Whether the line may stand where this group is open, or none, and has calls, or not.
    pub fn fits_group(&self, group: &Option<OpenGroup<'_>>, has_calls: bool) -> bool
        ensures { result ≡ fits_group (option_map group_meaning group.now) has_calls (statement_meaning self.now) }
    {
        match self {
            Statement::Call { layers, act } => group_allows(group, layers, act),
            Statement::Lock(_) | Statement::Hold | Statement::End => is_closed(group),
            Statement::Unlock(layer) => is_lock_on(*layer, group) && has_calls,
            Statement::Release => is_hold(group) && has_calls,
            Statement::Layers
            | Statement::Screen { .. }
            | Statement::Glyph { .. }
            | Statement::Bitmap { .. }
            | Statement::Row(_)
            | Statement::Pattern { .. }
            | Statement::Task(_)
            | Statement::Order
            | Statement::Numbers(_)
            | Statement::Report => true,
        }
    }

    /// Whether the line asks for a layer with a bitmap of its own.
    pub fn makes_super(&self) -> bool
        ensures { result ≡ makes_super (statement_meaning self.now) }
    {
        match self {
            Statement::Call { act, .. } => act.makes_super(),
            _ => false,
        }
    }

    /// The hook that the line names.
    pub fn hook(&self) -> Option<i64>
        ensures { result ≡ hook_on (statement_meaning self.now) }
    {
        match self {
            Statement::Call { act, .. } => act.hook(),
            _ => None,
        }
    }
}

impl AskedPolygon<'_> {
    /// Whether the area may stand in this group, or in none.
    pub fn fits_group(&self, group: &Option<OpenGroup<'_>>) -> bool
        ensures { result ≡ allows_area (option_map group_meaning group.now) self.now.layer.now }
    {
        match group {
            None => true,
            Some(OpenGroup::Locked(layer) | OpenGroup::Updating(layer)) => {
                is_text(*layer, self.layer)
            }
            Some(OpenGroup::Held) => false,
        }
    }
}
