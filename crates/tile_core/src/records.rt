//! The records of what was made ready, handed to a ledger before anything is changed.

ghost use Rattle.std.specs.Prelude.{◌≡◌, ◌⊎◌, ◌≤◌, ◌<◌, ◌+◌, ◌^◌, ◌∷◌, [], true, Bool, List, drop, length, map, IfOk};
ghost use Rattle.std.specs.Prelude.{OnErr, OnOk};
ghost use Rattle.world_data.specs.Expiry.{deadline_of, deletions, in_turn};
ghost use Rattle.world_data.specs.declared.objects.Object.{Object as ObjectState};
ghost use Rattle.fence_model.specs.Writes.{announced, going, silent};
ghost use Rattle.world_data.specs.declared.worlds.Change.TheVariants as change;
ghost use Rattle.log_record.specs.Words.{IsRecorded};
ghost use Rattle.tile_core.specs.Orders.{Rise, first_goes};
ghost use Rattle.tile_core.specs.RecordSinks.{ArePushed, ArePushedUpTo, AreTaken, CanRecord, CanRecordIf, IsPushed};
ghost use Rattle.tile_core.specs.RecordSinks.{ready_writes};
ghost use Rattle.object_plans.specs.Moves.{HoldsOfPut, IsAccepted};
ghost use Rattle.channel_plans.specs.Planned.{IsRecordedMove, channel_writes, dropped_of};
ghost use Rattle.object_plans.specs.Plans.{writes_of};
ghost use Rattle.tile_core.specs.Ready.{planned_writes};
ghost use Rattle.tile_core.specs.Staged.{dels_of};

use crate::growths::{Growths, grown};
use crate::ready::Ready;
use crate::record_sinks::RecordSink;
use crate::spares::KEPT_ROOM;
use byte_text::{MAX_WORD, Name, NoMemory, Text};
use channel_hub::{Candidates, Hub};
use command_plans::{ChannelChange, ObjectChange, Planned};
use record_reader::{MOST_FIELDS, changes_are_recorded};
use record_writer::{push_del, push_delchan, push_drop, push_flush, push_put, push_setchan};
use std::alloc::Global;
use world_model::{Channel, NameList, Object};

/// Appends the record of the put of an object, which is read back from it. One that no request puts, as its record
/// would be too long for one, is want of memory.
pub fn push_object(into: &mut Text, object: &Object) -> Result<(), NoMemory>
    requires { IsAccepted object.now }
    ensures { OnOk result (IsPushed (change.Put object.now) into.old into.new) }
{
    // A law, of which nothing is left at run time.
    changes_are_recorded();
    if object.fields.len() > MOST_FIELDS || object.text.len() > MAX_WORD {
        return Err(NoMemory);
    }
    push_put(into, object)
}

/// Appends the record of a channel that is read back from it.
pub fn push_channel(into: &mut Text, channel: &Channel) -> Result<(), NoMemory>
    requires { IsRecorded (change.SetChan channel.now) }
    ensures { OnOk result (IsPushed (change.SetChan channel.now) into.old into.new) }
{
    push_setchan(into, channel)
}

// Appends the record of the put of an object, whether it is told or not.
fn push_written<G: Growths>(
    into: &mut Text,
    object: &Object,
    growths: &mut G,
) -> Result<(), NoMemory>
    requires { IsAccepted object.now }
    ensures { OnOk result ((is_loud : Bool)
        → ArePushed (record { change = change.Put object.now; announced = is_loud } ∷ []) into.old into.new) }
{
    grown(growths)?;
    match push_object(into, object) {
        Ok(()) => Ok(()),
        Err(NoMemory) => Err(NoMemory),
    }
}

// Appends the record of the del of a key and an id.
fn push_one<G: Growths>(
    into: &mut Text,
    key: &Name,
    id: &Name,
    growths: &mut G,
) -> Result<(), NoMemory>
    ensures { OnOk result (ArePushed (announced (change.Del key.now id.now) ∷ []) into.old into.new) }
{
    // A law, of which nothing is left at run time.
    changes_are_recorded();
    grown(growths)?;
    push_del(into, key, id)
}

// Appends the records of the dels of the objects of a key that have these ids.
fn push_each<G: Growths>(
    into: &mut Text,
    key: &Name,
    ids: &NameList,
    growths: &mut G,
) -> Result<(), NoMemory>
    ensures { OnOk result (ArePushed (dels_of key.now ids.now) into.old into.new) }
{
    for i in 0..ids.len() {
        push_one(into, key, ids.at(i), growths)?;
    }
    Ok(())
}

// Appends the record of the deletion of a channel.
fn push_deletion<G: Growths>(
    into: &mut Text,
    channel: &Channel,
    growths: &mut G,
) -> Result<(), NoMemory>
    ensures { OnOk result (ArePushed (silent (change.DelChan channel.now.name) ∷ []) into.old into.new) }
{
    // A law, of which nothing is left at run time.
    changes_are_recorded();
    grown(growths)?;
    push_delchan(into, &channel.name)
}

// Whether one of the channels stands at a place that goes before the object.
fn goes_next(out: &Candidates<'_>, at: usize, object: &Object) -> bool
    ensures value { result ≡ first_goes object.now (drop at out.now) }
    ensures short { result ≡ true → at + 1 < 2 ^ 64 }
{
    if at >= out.len() {
        return false;
    }
    out.at(at).deadline.unwrap_or(0) < object.deadline.unwrap_or(0)
}

// Appends the records of the deletions of the channels, from a place on, that go before an object, and answers the
// place behind them.
fn push_before<G: Growths>(
    into: &mut Text,
    out: &Candidates<'_>,
    at: usize,
    object: &Object,
    growths: &mut G,
) -> Result<usize, NoMemory>
    requires rise { Rise (λ c. deadline_of c.deadline) out.now }
    requires within { at ≤ length out.now }
    ensures within { IfOk result (λ next. next ≤ length out.now) }
    ensures pushed { IfOk result (λ next. (more : List ObjectState)
        → ArePushedUpTo (map going (in_turn (object.now ∷ more) (drop at out.now)))
        (announced (change.Del object.now.key object.now.id) ∷ map going (in_turn more (drop next out.now)))
        into.old into.new) }
{
    let mut next = at;
    while goes_next(out, next, object) {
        push_deletion(into, out.at(next), growths)?;
        next += 1;
    }
    Ok(next)
}

// Appends the records of the deletions of the channels from a place on.
fn push_rest<G: Growths>(
    into: &mut Text,
    out: &Candidates<'_>,
    from: usize,
    growths: &mut G,
) -> Result<(), NoMemory>
    requires { from ≤ length out.now }
    ensures { OnOk result (ArePushed (map going (deletions (drop from out.now))) into.old into.new) }
{
    for i in from..out.len() {
        push_deletion(into, out.at(i), growths)?;
    }
    Ok(())
}

// Appends the records of the deletions of objects and channels, in turn.
fn push_in_turn<G: Growths>(
    into: &mut Text,
    held: &[Object],
    out: &Candidates<'_>,
    growths: &mut G,
) -> Result<(), NoMemory>
    requires { Rise (λ c. deadline_of c.deadline) out.now }
    ensures { OnOk result (ArePushed (map going (in_turn held.now out.now)) into.old into.new) }
{
    let mut at = 0;
    for i in 0..held.len() {
        let object = &held[i];
        let next = push_before(into, out, at, object, growths)?;
        push_one(into, &object.key, &object.id, growths)?;
        at = next;
    }
    push_rest(into, out, at, growths)
}

// Appends the records of a move of the objects, whether a put is told or not.
fn push_move<G: Growths>(
    into: &mut Text,
    action: &ObjectChange,
    growths: &mut G,
) -> Result<(), NoMemory>
    requires { HoldsOfPut IsAccepted action.now }
    ensures { OnOk result ((is_loud : Bool) → ArePushed (writes_of action.now is_loud) into.old into.new) }
{
    // A law, of which nothing is left at run time.
    changes_are_recorded();
    match action {
        ObjectChange::Stay => Ok(()),
        ObjectChange::Put(object) => push_written(into, object, growths),
        ObjectChange::Delete(key, id) => push_one(into, key, id, growths),
        ObjectChange::DeleteEach(key, ids) => push_each(into, key, ids, growths),
        ObjectChange::DropKey(key) => {
            grown(growths)?;
            push_drop(into, key)
        }
        ObjectChange::Clear => {
            grown(growths)?;
            push_flush(into)
        }
    }
}

// Appends the records of the deletions of the channels of these names.
fn push_dropped<G: Growths>(
    into: &mut Text,
    names: &NameList,
    growths: &mut G,
) -> Result<(), NoMemory>
    ensures { OnOk result (ArePushed (dropped_of names.now) into.old into.new) }
{
    // A law, of which nothing is left at run time.
    changes_are_recorded();
    for i in 0..names.len() {
        grown(growths)?;
        push_delchan(into, names.at(i))?;
    }
    Ok(())
}

// Appends the records of a move of the channels.
fn push_channel_move<G: Growths>(
    into: &mut Text,
    action: &ChannelChange,
    growths: &mut G,
) -> Result<(), NoMemory>
    requires { IsRecordedMove action.now }
    ensures { OnOk result (ArePushed (channel_writes action.now) into.old into.new) }
{
    match action {
        ChannelChange::Set(channel) => {
            grown(growths)?;
            push_setchan(into, channel)
        }
        ChannelChange::Drop(names) => push_dropped(into, names, growths),
    }
}

// Appends the records of what a request will do.
fn push_planned<G: Growths>(
    into: &mut Text,
    planned: &Planned,
    growths: &mut G,
) -> Result<(), NoMemory>
    requires { CanRecord planned.now }
    ensures { OnOk result (ArePushed (planned_writes planned.now) into.old into.new) }
{
    match planned {
        Planned::Objects(plan) => push_move(into, &plan.action, growths),
        Planned::Channels(plan) => push_channel_move(into, &plan.action, growths),
        Planned::Subscribed(_) => Ok(()),
    }
}

// Appends the records of what was made ready: of what goes by its deadline, and of what is planned behind that.
fn push_ready<G: Growths>(
    alloc: Global,
    into: &mut Text,
    hub: &Hub,
    ready: &Ready,
    growths: &mut G,
) -> Result<(), NoMemory>
    requires rise { Rise (λ c. deadline_of c.deadline) hub.now.taken }
    requires can { CanRecordIf ready.now.planned }
    ensures { OnOk result (ArePushed (ready_writes hub.now.taken ready.now) into.old into.new) }
{
    grown(growths)?;
    let out = hub.taken(alloc)?;
    push_in_turn(into, ready.gone.held.as_slice(), &out, growths)?;
    match &ready.planned {
        Some(planned) => push_planned(into, planned, growths),
        None => Ok(()),
    }
}

// Writes the records into a text in place of what it had, and hands them to the ledger.
fn hand_over<L: RecordSink, G: Growths>(
    alloc: Global,
    records: &mut Text,
    hub: &Hub,
    ready: &Ready,
    ledger: &mut L,
    growths: &mut G,
) -> Result<(), NoMemory>
    requires rise { Rise (λ c. deadline_of c.deadline) hub.now.taken }
    requires can { CanRecordIf ready.now.planned }
    ensures ok { OnOk result (AreTaken L.takes (ready_writes hub.now.taken ready.now) ledger.old ledger.new) }
    ensures err { OnErr result ((ledger.new ≡ ledger.old) ⊎ L.stays ledger.old ledger.new) }
{
    records.truncate(0);
    push_ready(alloc, records, hub, ready, growths)?;
    grown(growths)?;
    ledger.take(records.bytes())
}

/// Hands the records of what was made ready to a ledger. They are written into a text that is kept for the next call,
/// but where they were long.
pub(crate) fn record_ready<L: RecordSink, G: Growths>(
    alloc: Global,
    records: &mut Text,
    hub: &Hub,
    ready: &Ready,
    ledger: &mut L,
    growths: &mut G,
) -> Result<(), NoMemory>
    requires rise { Rise (λ c. deadline_of c.deadline) hub.now.taken }
    requires can { CanRecordIf ready.now.planned }
    ensures ok { OnOk result (AreTaken L.takes (ready_writes hub.now.taken ready.now) ledger.old ledger.new) }
    ensures err { OnErr result ((ledger.new ≡ ledger.old) ⊎ L.stays ledger.old ledger.new) }
{
    let taken = hand_over(alloc, records, hub, ready, ledger, growths);
    if records.len() > KEPT_ROOM {
        *records = Text::new(alloc);
    }
    taken
}
