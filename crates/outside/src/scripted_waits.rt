//! One that waits in memory, which a script drives.

ghost use Rattle.std.specs.Prelude.{◌≡◌, ◌∷◌, ◌++◌, [], length, map, false, IfOk, OnOk, OnErr};
ghost use Rattle.std.specs.List.{slice_get};
ghost use Rattle.outside.specs.Causes.{next_count};
ghost use Rattle.outside.specs.Waits.{WaitState, Tries, Waits, Shuts};
ghost use Rattle.outside.specs.LinkScripts.{later, shown};
ghost use Rattle.outside.specs.WaitScripts.{Waited, waited, is_end, names_end, next_named, next_over};

use crate::failures::Failed;
use crate::scripted_doors::ScriptedDoor;
use crate::scripted_links::ScriptedLink;
use crate::waits::{Named, WaitForLinks, Wake};
use memory::NoMemory;
use std::alloc::Global;
use std::collections::VecDeque;
use std::marker::Model;
use std::sync::Arc;
use std::sync::atomic::{AtomicU64, Ordering};

/// It counts how often it was called.
#[derive(Drop)]
pub struct CountingWaker {
    calls: Arc<AtomicU64, Global>,
}

impl Wake for CountingWaker {
    fn wake(&self) {
        self.calls.fetch_add(1, Ordering::SeqCst);
    }
}

fn is_end(name: &Named) -> bool
    ensures { result ≡ is_end name.now }
{
    matches!(name, Named::End)
}

// Whether an end is among those who are named.
fn names_end(names: &[Named]) -> bool
    ensures { result ≡ names_end names.now }
{
    names.iter().any(|name| is_end(name))
}

/// One that waits in memory: it names whom its script says, ready or not. Behind the end of the script each wait names
/// all that are watched.
pub struct ScriptedWait {
    waits: VecDeque<Vec<Named>>,
    watched: Vec<Named>,
    // Whom the last wait named by the script, where it did.
    listed: Option<Vec<Named>>,
    shut: Vec<ScriptedLink>,
    // Whether the script has named an end.
    over: bool,
    calls: Arc<AtomicU64, Global>,
    faults: u64,
}

impl Drop for ScriptedWait {
    fn drop(self) {
        let ScriptedWait {
            waits: _,
            watched: _,
            listed: _,
            shut: _,
            over: _,
            calls: _,
            faults: _,
        } = self;
    }
}

impl Model for ScriptedWait {
    ghost use Rattle.std.specs.Prelude.{map, option_map};
    ghost use Rattle.outside.specs.WaitScripts.{Waited, listed_or};

    ghost Value = { Waited };

    ghost view = { λ w. record {
      waits = map (λ names. names.items) w.waits.items;
      watched = w.watched.items;
      named = listed_or (option_map (λ names. names.items) w.listed) w.watched.items;
      shut = w.shut.items;
      over = w.over;
      faults = w.faults;
    } };
}

impl ScriptedWait {
    /// Each wait names whom `waits` lists.
    pub fn new(alloc: Global, waits: Vec<Vec<Named>>) -> Result<ScriptedWait, NoMemory>
        ensures { IfOk result
            (λ w. w ≡ record {
              waits = map (λ names. names.items) waits.items;
              watched = [];
              named = [];
              shut = [];
              over = false;
              faults = 0;
            }) }
    {
        Ok(ScriptedWait {
            waits: VecDeque::from(waits),
            watched: Vec::new(alloc),
            listed: None,
            shut: Vec::new(alloc),
            over: false,
            calls: Arc::new(alloc, AtomicU64::new(0))?,
            faults: 0,
        })
    }

    /// The links that were shut, in that order.
    pub fn shut_links(&self) -> &[ScriptedLink]
        ensures { result.now ≡ self.now.shut }
    {
        &self.shut
    }

    /// How often its wakers were called.
    pub fn wakes(&self) -> u64 {
        self.calls.load(Ordering::SeqCst)
    }

    // Watches one more.
    fn add(&mut self, name: Named) -> Result<(), Failed>
        ensures tries { Tries (waited self.old) (waited self.new) result }
        ensures watched { OnOk result (self.new.watched ≡ self.old.watched ++ name ∷ []) }
        ensures refused { OnErr result (self.new ≡ record self.old { faults = next_count self.old.faults }) }
        ensures waits { self.new.waits ≡ self.old.waits }
        ensures shut { self.new.shut ≡ self.old.shut }
    {
        if self.watched.push(name).is_err() {
            self.faults = self.faults.saturating_add(1);
            return Err(Failed);
        }
        Ok(())
    }
}

impl WaitForLinks<ScriptedDoor> for ScriptedWait {
    ghost use Rattle.std.specs.Prelude.{◌≡◌};
    ghost use Rattle.outside.specs.Waits.{WaitState, Tries, Waits, Shuts};
    ghost use Rattle.outside.specs.WaitScripts.{waited};

    type Waker = CountingWaker;

    ghost shows = { λ w. waited w };

    /// It fails where there is no memory to remember the door.
    fn watch_door(&mut self, door: &mut ScriptedDoor) -> Result<(), Failed>
        ensures door { door.new ≡ door.old }
        ensures tries { Tries (waited self.old) (waited self.new) result }
        ensures watched { OnOk result (self.new.watched ≡ self.old.watched ++ Named.Door ∷ []) }
        ensures waits { self.new.waits ≡ self.old.waits }
    {
        self.add(Named::Door)
    }

    /// It fails where there is no memory to remember the number.
    fn watch(&mut self, link: &mut ScriptedLink, token: u32) -> Result<(), Failed>
        ensures link { link.new ≡ link.old }
        ensures tries { Tries (waited self.old) (waited self.new) result }
        ensures watched { OnOk result (self.new.watched ≡ self.old.watched ++ Named.Link token ∷ []) }
        ensures waits { self.new.waits ≡ self.old.waits }
    {
        self.add(Named::Link(token))
    }

    /// The script says when.
    fn watch_end(&mut self) -> Result<(), Failed>
        ensures same { self.new ≡ self.old }
        ensures never { OnErr result ⊥ }
    {
        Ok(())
    }

    /// It waits for nobody.
    fn wait(&mut self, millis: u32) -> Result<usize, Failed>
        ensures waits { Waits (waited self.old) (waited self.new) result }
        ensures count { IfOk result (λ n. n ≡ length self.new.named) }
        ensures same { self.new
            ≡ record self.old {
              waits = later self.old.waits;
              named = next_named self.old.waits self.old.watched;
              over = next_over self.old.waits self.old.over;
            } }
    {
        self.listed = self.waits.pop_front();
        match &self.listed {
            Some(names) => {
                self.over = self.over || names_end(names);
                Ok(names.len())
            }
            None => Ok(self.watched.len()),
        }
    }

    fn is_over(&self) -> bool {
        self.over
    }

    fn named(&self, nth: usize) -> Option<Named>
        ensures { result ≡ slice_get self.now.named nth }
    {
        match &self.listed {
            Some(names) => names.get(nth).copied(),
            None => self.watched.get(nth).copied(),
        }
    }

    fn waker(&self) -> Result<CountingWaker, NoMemory> {
        Ok(CountingWaker {
            calls: Arc::try_clone(&self.calls)?,
        })
    }

    fn shut(&mut self, link: ScriptedLink) -> Result<(), NoMemory>
        ensures shuts { Shuts (waited self.old) (waited self.new) result (shown link) }
        ensures ok { OnOk result (self.new ≡ record self.old { shut = self.old.shut ++ link ∷ [] }) }
        ensures err { OnErr result (self.new ≡ self.old) }
    {
        self.shut.push(link)?;
        Ok(())
    }
}
