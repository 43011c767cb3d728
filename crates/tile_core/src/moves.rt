//! Objects are changed as a plan says.

ghost use Rattle.std.specs.Prelude.{◌≡◌, ◌<◌, ◌≤◌, ◌^◌, length, OnOk};
ghost use Rattle.byte_text.specs.Names.{Bytes};
ghost use Rattle.keyspace.specs.Entries.{objects_in, room_for};
ghost use Rattle.tile_core.specs.Dues.{IsChannelDueFrom, IsDueFrom};
ghost use Rattle.tile_core.specs.Ready.{HoldsOfSet};
ghost use Rattle.object_plans.specs.Moves.{HasRoom, HoldsOfPut, moved, without_each};

use crate::dues::earlier;
use crate::growths::{Growths, grown};
use byte_text::{Name, NoMemory};
use command_plans::{ChannelChange, ObjectChange};
use keyspace::Keyspace;
use rtree::{Steps, Visits};
use world_model::NameList;

/// Takes room for what is put. For want of memory the objects are as before.
pub(crate) fn make_room<G: Growths>(
    objects: &mut Keyspace,
    action: &ObjectChange,
    growths: &mut G,
) -> Result<(), NoMemory>
    ensures objects { objects_in objects.new ≡ objects_in objects.old }
    ensures kept { (key : Bytes) → room_for objects.old key ≤ room_for objects.new key }
    ensures room { OnOk result (HasRoom objects.new action.now) }
{
    match action {
        ObjectChange::Put(object) => {
            grown(growths)?;
            objects.prepare(&object.key)
        }
        _ => Ok(()),
    }
}

// Takes out the objects of a key that have these ids.
fn delete_each(objects: &mut Keyspace, key: &Name, ids: &NameList, steps: &mut Steps<Visits>)
    ensures { objects_in objects.new ≡ without_each key.now ids.now (objects_in objects.old) }
{
    for i in 0..ids.len() {
        objects.take_out(key, ids.at(i), steps);
    }
}

/// Does this to the objects, and gives up a key that has none left. It takes no memory. The steps count the nodes that
/// it visits.
pub(crate) fn make_move(objects: &mut Keyspace, action: ObjectChange, steps: &mut Steps<Visits>)
    requires room { HasRoom objects.old action }
    requires few { length (objects_in objects.old) < 2 ^ 32 }
    ensures { objects_in objects.new ≡ moved (objects_in objects.old) action }
{
    match action {
        ObjectChange::Stay => {}
        ObjectChange::Put(object) => {
            objects.put(object, steps);
        }
        ObjectChange::Delete(key, id) => {
            objects.take_out(&key, &id, steps);
            objects.give_up(&key);
        }
        ObjectChange::DeleteEach(key, ids) => {
            delete_each(objects, &key, &ids, steps);
            objects.give_up(&key);
        }
        ObjectChange::DropKey(key) => objects.drop_key(&key),
        ObjectChange::Clear => objects.clear(),
    }
}

/// No deadline comes before this moment after what is done to objects of which none came before `due_from`.
pub(crate) fn due_from_after(due_from: u64, action: &ObjectChange) -> u64
    ensures least { result ≤ due_from }
    ensures put { HoldsOfPut (IsDueFrom result) action.now }
{
    match action {
        ObjectChange::Put(object) => earlier(due_from, object.deadline),
        _ => due_from,
    }
}

/// No deadline comes before this moment after what is done to channels of which none came before `due_from`.
pub(crate) fn channels_due_from_after(due_from: u64, action: &ChannelChange) -> u64
    ensures least { result ≤ due_from }
    ensures set { HoldsOfSet (IsChannelDueFrom result) action.now }
{
    match action {
        ChannelChange::Set(channel) => earlier(due_from, channel.deadline),
        ChannelChange::Drop(_) => due_from,
    }
}
