//! Tasks, groups and calls added to those that were read.
ghost use Rattle.std.specs.Prelude.{Bool, ◌≡◌, ℕ, ◌+◌, ◌<◌, ◌≤◌, false, if◌then◌else◌, IsTrue, IfOk, OnOk, List, ◌∷◌, length};
ghost use Rattle.std.specs.Prelude.{map, option_map, bytes_eq};
ghost use Rattle.std.specs.List.{list_any};
ghost use Rattle.lw_grammar.specs.Statements.{Statement as StatementValue, TaskLine, LockLine, UnlockLine, HoldLine};
ghost use Rattle.lw_grammar.specs.Statements.{ReleaseLine, NameWithoutSlot, PairMade, CallLine, layers_of, is_hook_number};
ghost use Rattle.lw_grammar.specs.Statements.{is_act_in_range};
ghost use Rattle.lw_grammar.specs.Told.{and_name, and_names, place_among, onto_last, makes_super, and_hook, left_open_by, told};
ghost use Rattle.lw_grammar.specs.Script.{is_ending};
ghost use Rattle.lw_words.specs.Cuts.{targets};
ghost use Rattle.lw_statements.specs.StatementMeaning.{act_meaning, layers_meaning};
ghost use Rattle.lw_statements.specs.CallMeaning.{IsBitmapAt};
ghost use Rattle.lw_statements.specs.GroupMeaning.{group_meaning};
ghost use Rattle.lw_reader.specs.CallParts.{first_place, second_place, AreNoted};
ghost use Rattle.lw_reader.specs.Represents.{TasksRepresent};

use crate::state::{NamedPair, TasksRead};
use indexmap::IndexSet;
use lw_calls::{Group, Hold};
use lw_grammar::BareVerb;
use lw_statements::{Act, Layers, OpenGroup, count};
use std::alloc::{AllocError, Global};

/// The number of a name among these, where a name that isn't one of them gets the next number.
fn numbered<'a>(names: &mut IndexSet<&'a [u8]>, name: &'a [u8]) -> Result<u32, AllocError>
    requires few { length names.old.keys < 4294967295 }
    ensures names { OnOk result (targets names.new.keys ≡ and_name (targets names.old.keys) name.entry.now) }
    ensures place { IfOk result (λ slot. slot ≡ place_among (targets names.old.keys) name.entry.now) }
{
    let (slot, _) = names.insert_full(name)?;
    Ok(slot as u32)
}

/// Puts something at the end of the last of these lists, if there is one.
fn put_last<T: Drop>(lists: &mut Vec<Vec<T>>, item: T) -> Result<(), AllocError>
    ensures { OnOk result (map (λ list. list.items) lists.new.items ≡ onto_last item (map (λ list. list.items) lists.old.items)) }
{
    if let Some(list) = lists.last_mut() {
        list.push(item)?;
    }
    Ok(())
}

/// The numbers of the layers that a call's line names, and 0 in the place of each that it doesn't name.
fn slots_of<'a>(
    names: &mut IndexSet<&'a [u8]>,
    layers: Layers<'a>,
) -> Result<(u32, u32), AllocError>
    requires few { length names.old.keys < 4294967294 }
    ensures names { OnOk result (targets names.new.keys ≡ and_names (targets names.old.keys) (layers_meaning layers.entry)) }
    ensures first { IfOk result (λ slots. slots.0 ≡ first_place (targets names.old.keys) (layers_meaning layers.entry)) }
    ensures second { IfOk result (λ slots. slots.1 ≡ second_place (targets names.old.keys) (layers_meaning layers.entry)) }
{
    match layers {
        Layers::Nothing => Ok((0, 0)),
        Layers::One(first) => {
            let slot = numbered(names, first)?;
            Ok((slot, 0))
        }
        Layers::Two(first, second) => {
            let slot = numbered(names, first)?;
            let other = numbered(names, second)?;
            Ok((slot, other))
        }
    }
}

/// Notes the hook that a line names.
fn note_hook(hooks_named: &mut IndexSet<u32>, number: Option<i64>) -> Result<(), AllocError>
    requires { IsTrue (is_hook_number number) }
    ensures { (named : ℕ → Bool) → AreNoted hooks_named.old.keys named
        → OnOk result (AreNoted hooks_named.new.keys (and_hook number named)) }
{
    if let Some(number) = number {
        hooks_named.insert(count(number))?;
    }
    Ok(())
}

/// How many lines asked for a super-bitmap layer, with a call's.
fn supers_with(supers: u32, act: &Act<'_>) -> u32
    requires { supers ≤ 16 }
    ensures { (layers : List (List ℕ))
        → result ≡ (if makes_super (CallLine layers (act_meaning act.now)) then 1 else 0) + supers }
{
    if act.makes_super() {
        supers + 1
    } else {
        supers
    }
}

/// Adds the group that a call ends, if it ends one.
fn end_update(groups: &mut Vec<Vec<Group>>, act: &Act<'_>, group: Group) -> Result<(), AllocError>
    ensures { OnOk result (map (λ list. list.items) groups.new.items ≡ (if is_ending (act_meaning act.now)
        then onto_last group (map (λ list. list.items) groups.old.items) else map (λ list. list.items) groups.old.items)) }
{
    if act.is_ending() {
        put_last(groups, group)?;
    }
    Ok(())
}

/// The group that is open below a call.
fn group_below<'a>(
    group: Option<OpenGroup<'a>>,
    layers: Layers<'a>,
    act: &Act<'_>,
) -> Option<OpenGroup<'a>>
    ensures { option_map group_meaning result
        ≡ left_open_by (layers_meaning layers.entry) (act_meaning act.now) (option_map group_meaning group.entry) }
{
    match (layers, act) {
        (Layers::One(layer), Act::Bare(BareVerb::Refresh)) => Some(OpenGroup::Updating(layer)),
        (_, Act::EndRefresh { .. }) => None,
        _ => group,
    }
}

/// How many calls a task had when the group began that is open below a call.
fn began_below(calls_before_group: u32, calls_in_task: u32, act: &Act<'_>) -> u32
    ensures { (above : List StatementValue) → calls_before_group ≡ (told above).calls_before_group
        → calls_in_task ≡ (told above).calls_in_task
        → (layers : List (List ℕ)) → result ≡ (told (CallLine layers (act_meaning act.now) ∷ above)).calls_before_group }
{
    match act {
        Act::Bare(BareVerb::Refresh) => calls_in_task,
        _ => calls_before_group,
    }
}

impl<'a> TasksRead<'a> {
    /// Begins a task.
    pub fn add_task(&mut self, alloc: Global, name: &'a [u8]) -> Result<(), AllocError>
        requires new { list_any (bytes_eq name.now) (targets self.old.task_names.keys) ≡ false }
        ensures { (above : List StatementValue) → TasksRepresent self.old above
            → OnOk result (TasksRepresent self.new (TaskLine name.entry.now ∷ above)) }
    {
        self.task_names.insert(name)?;
        self.calls.push(Vec::new(alloc))?;
        self.groups.push(Vec::new(alloc))?;
        self.calls_in_task = 0;
        Ok(())
    }

    /// Begins a lock on a layer.
    pub fn add_lock(&mut self, name: &'a [u8]) -> Result<(), AllocError>
        requires few { length self.old.layer_names.keys < 4294967294 }
        ensures { (above : List StatementValue) → TasksRepresent self.old above
            → OnOk result (TasksRepresent self.new (LockLine name.entry.now ∷ above)) }
    {
        numbered(&mut self.layer_names, name)?;
        self.group = Some(OpenGroup::Locked(name));
        self.calls_before_group = self.calls_in_task;
        Ok(())
    }

    /// Begins a hold.
    pub fn add_hold(&mut self)
        ensures { (above : List StatementValue) → TasksRepresent self.old above → TasksRepresent self.new (HoldLine ∷ above) }
    {
        self.group = Some(OpenGroup::Held);
        self.calls_before_group = self.calls_in_task;
    }

    /// Ends a lock on a layer, which has calls.
    pub fn add_unlock(&mut self, name: &'a [u8]) -> Result<(), AllocError>
        requires few { length self.old.layer_names.keys < 4294967294 }
        requires some { 0 < self.old.calls_in_task }
        ensures { (above : List StatementValue) → TasksRepresent self.old above
            → OnOk result (TasksRepresent self.new (UnlockLine name.entry.now ∷ above)) }
    {
        let slot = numbered(&mut self.layer_names, name)?;
        let group = Group {
            first: self.calls_before_group,
            last: self.calls_in_task - 1,
            hold: Hold::Slot(slot),
        };
        put_last(&mut self.groups, group)?;
        self.group = None;
        Ok(())
    }

    /// Ends a hold, which has calls.
    pub fn add_release(&mut self) -> Result<(), AllocError>
        requires some { 0 < self.old.calls_in_task }
        ensures { (above : List StatementValue) → TasksRepresent self.old above
            → OnOk result (TasksRepresent self.new (ReleaseLine ∷ above)) }
    {
        let group = Group {
            first: self.calls_before_group,
            last: self.calls_in_task - 1,
            hold: Hold::All,
        };
        put_last(&mut self.groups, group)?;
        self.group = None;
        Ok(())
    }

    /// Adds a name that stands on a line without a call.
    pub fn add_name_without_slot(&mut self, name: &'a [u8]) -> Result<(), AllocError>
        ensures { (above : List StatementValue) → TasksRepresent self.old above
            → OnOk result (TasksRepresent self.new (NameWithoutSlot name.entry.now ∷ above)) }
    {
        self.names_without_slot.insert(name)?;
        Ok(())
    }

    /// Adds a window of two layers.
    pub fn add_pair(&mut self, pair: &NamedPair<'a>) -> Result<(), AllocError>
        ensures { (above : List StatementValue) → TasksRepresent self.old above
            → OnOk result (TasksRepresent self.new (PairMade pair.now.outer.now pair.now.inner.now ∷ above)) }
    {
        self.pairs.push(*pair)?;
        Ok(())
    }

    /// Adds a call, where the bitmap that it names has this number.
    pub fn add_call(
        &mut self,
        alloc: Global,
        bitmap: u32,
        layers: Layers<'a>,
        act: &Act<'a>,
    ) -> Result<(), AllocError>
        requires range { IsTrue (is_act_in_range (act_meaning act.now)) }
        requires made { length (layers_meaning layers) ≡ layers_of (act_meaning act.now) }
        requires few { length self.old.layer_names.keys < 4294967294 }
        requires room { self.old.calls_in_task < 4294967295 }
        requires supers { self.old.supers ≤ 16 }
        ensures { (above : List StatementValue) → IsBitmapAt (told above).bitmap_names bitmap (act_meaning act.now)
            → TasksRepresent self.old above
            → OnOk result (TasksRepresent self.new (CallLine (layers_meaning layers.entry) (act_meaning act.now) ∷ above)) }
    {
        let (slot, other) = slots_of(&mut self.layer_names, layers)?;
        let call = act.call(alloc, bitmap, slot, other)?;
        note_hook(&mut self.hooks_named, act.hook())?;
        self.supers = supers_with(self.supers, act);
        let group = Group {
            first: self.calls_before_group,
            last: self.calls_in_task,
            hold: Hold::Slot(slot),
        };
        end_update(&mut self.groups, act, group)?;
        self.group = group_below(self.group, layers, act);
        self.calls_before_group = began_below(self.calls_before_group, self.calls_in_task, act);
        put_last(&mut self.calls, call)?;
        self.calls_in_task += 1;
        Ok(())
    }
}
