//! Subscriptions to names and to patterns.
//!
//! Subscriptions stand with their session, so no list of sessions by number is needed beside those that are present.

ghost use Rattle.std.specs.Prelude.{◌≡◌, ◌<◌, ◌≤◌, ◌↔◌, ◌++◌, ◌∷◌, [], false, length, slice_get, Some, Err, IfOk, OnOk};
ghost use Rattle.std.specs.Prelude.{OnErr};
ghost use Rattle.std.specs.List.{list_any};
ghost use Rattle.fence_model.specs.Messages.{Message};
ghost use Rattle.world_data.specs.Limits.{max_subs};
ghost use Rattle.world_model.specs.Halls.{frames_for};
ghost use Rattle.world_model.specs.Subscriptions.{same_sub, with_sub};
ghost use Rattle.session_table.specs.Marks.{mark_of, marks};
ghost use Rattle.session_table.specs.Subscribed.{sub};
ghost use Rattle.session_table.specs.declared.held.SubscribeFault.TheVariants.{TooMany};

use crate::marks::Marks;
use byte_text::{Name, NoMemory};
use ordered_lists::is_same;
use std::alloc::Global;
use std::marker::Model;
use world_data::MAX_SUBS;

/// Why a word is not subscribed to.
#[derive(Clone, Copy, Debug, PartialEq, Eq)]
pub enum SubscribeFault {
    /// There are as many subscriptions as one session may have, and this one is not among them.
    TooMany,
    /// There was no memory for it.
    Memory,
}

impl From<NoMemory> for SubscribeFault {
    ghost use Rattle.std.specs.Prelude.{◌≡◌};
    ghost use Rattle.session_table.specs.declared.held.SubscribeFault.{SubscribeFault};

    ghost from_gives = { λ _ f. f ≡ SubscribeFault.Memory };

    fn from(_fault: NoMemory) -> SubscribeFault {
        SubscribeFault::Memory
    }
}

/// A subscription: to a channel's name, or to the names that meet a pattern.
#[derive(Drop)]
pub struct Subscription {
    word: Name,
    pattern: bool,
}

impl Model for Subscription {
    ghost use Rattle.world_model.specs.Subscriptions.{Sub};

    ghost Value = { Sub };

    ghost view = { λ s. record { pattern = s.pattern; word = s.word } };
}

impl Subscription {
    // The same subscription in memory of its own.
    fn copy(&self, alloc: Global) -> Result<Subscription, NoMemory>
        ensures { IfOk result (λ s. s ≡ self.now) }
    {
        Ok(Subscription {
            word: self.word.copy(alloc)?,
            pattern: self.pattern,
        })
    }

    /// The name, or the pattern.
    pub fn word(&self) -> &Name
        ensures { result.now ≡ self.now.word }
    {
        &self.word
    }

    /// Whether it is to a pattern.
    pub fn is_pattern(&self) -> bool
        ensures { result ≡ self.now.pattern }
    {
        self.pattern
    }

    // Whether it is the one to this word, as a pattern or as a name.
    fn is(&self, word: &Name, pattern: bool) -> bool
        ensures { result ≡ same_sub (sub pattern word.now) self.now }
    {
        self.pattern == pattern && is_same(word, &self.word)
    }
}

/// The subscriptions of one session, in the order of subscribing: none twice, where a name and a pattern of one text
/// are two. There are at most MAX_SUBS.
#[derive(Drop)]
pub struct Subscriptions {
    held: Vec<Subscription>,
    marks: Marks,
}

impl Model for Subscriptions {
    ghost use Rattle.std.specs.Prelude.{List, ◌≤◌, length};
    ghost use Rattle.session_table.specs.Marks.{AreMarked};
    ghost use Rattle.world_data.specs.Limits.{max_subs};
    ghost use Rattle.world_model.specs.Subscriptions.{Sub};

    ghost Value = { List Sub };

    ghost view = { λ s. s.held.items };

    ghost invariant = { λ s. (length s.held.items ≤ max_subs) × AreMarked s.marks s.held.items };
}

impl Subscriptions {
    /// No subscription. It takes no memory; what is subscribed to takes it from `alloc`.
    pub fn new(alloc: Global) -> Subscriptions
        ensures { result ≡ [] }
    {
        Subscriptions {
            held: Vec::new(alloc),
            marks: Marks::none(),
        }
    }

    /// The same subscriptions in memory of their own.
    pub fn copy(&self, alloc: Global) -> Result<Subscriptions, NoMemory>
        ensures { IfOk result (λ s. s ≡ self.now) }
    {
        let mut held = Vec::new(alloc);
        for subscription in &self.held {
            if held.push(subscription.copy(alloc)?).is_err() {
                return Err(NoMemory);
            }
        }
        Ok(Subscriptions {
            held,
            marks: self.marks.copy(),
        })
    }

    /// How many there are.
    pub fn len(&self) -> usize
        ensures count { result ≡ length self.now }
        ensures few { result ≤ max_subs }
    {
        self.held.len()
    }

    /// The one at a place, counted from 0 in the order of subscribing.
    pub fn at(&self, i: usize) -> &Subscription
        requires { i < length self.now }
        ensures { slice_get self.now i ≡ Some result.now }
    {
        &self.held[i]
    }

    /// Whether a message to a name of this mark may be heard. Where it may not, no subscription hears it.
    #[tactic(auto, using(crate::proofs::Marked::hears_nothing))]
    pub(crate) fn may_hear(&self, mark: usize) -> bool
        requires { mark < marks }
        ensures { result ≡ false → (m : Message) → mark_of m.0 ≡ mark → frames_for m self.now ≡ [] }
    {
        self.marks.may_hear(mark)
    }

    /// Whether this word is subscribed to, as a pattern or as a name.
    pub fn is_held(&self, word: &Name, pattern: bool) -> bool
        ensures { result ≡ list_any (same_sub (sub pattern word.now)) self.now }
    {
        for subscription in &self.held {
            if subscription.is(word, pattern) {
                return true;
            }
        }
        false
    }

    /// Subscribes to a name, or to the names that meet a pattern, and answers how many subscriptions there are then.
    /// One that is held keeps its place, and the count stays. It is refused exactly where it would be one more than
    /// MAX_SUBS. Where it is refused, and for want of memory, all is as before.
    pub fn subscribe(
        &mut self,
        alloc: Global,
        word: &Name,
        pattern: bool,
    ) -> Result<usize, SubscribeFault>
        ensures count { IfOk result (λ n. n ≡ length self.new) }
        ensures ok { OnOk result (self.new ≡ with_sub self.old (sub pattern word.now)) }
        ensures err { OnErr result (self.new ≡ self.old) }
        ensures too_many { (result ≡ Err TooMany) ↔ (max_subs < length (with_sub self.old (sub pattern word.now))) }
    {
        if self.is_held(word, pattern) {
            return Ok(self.len());
        }
        if self.held.len() == MAX_SUBS {
            return Err(SubscribeFault::TooMany);
        }
        self.add(alloc, word, pattern)?;
        Ok(self.len())
    }

    // Puts a subscription last.
    #[tactic(auto, using(crate::proofs::Marked::marked_with))]
    fn add(&mut self, alloc: Global, word: &Name, pattern: bool) -> Result<(), NoMemory>
        requires { length self.old < max_subs }
        ensures ok { OnOk result (self.new ≡ self.old ++ sub pattern word.now ∷ []) }
        ensures err { OnErr result (self.new ≡ self.old) }
    {
        match self.held.reserve(1) {
            Ok(()) => {}
            Err(_) => return Err(NoMemory),
        }
        let word = word.copy(alloc)?;
        self.marks.add(&word, pattern);
        self.held.push_reserved(Subscription { word, pattern });
        Ok(())
    }

    /// Takes all of them away. It takes no memory.
    pub fn clear(&mut self)
        ensures { self.new ≡ [] }
    {
        self.held.clear();
        self.marks = Marks::none();
    }
}
