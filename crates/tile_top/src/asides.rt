//! What the words ask for where it needs no disk: the generated workload, the following of a leader, and the usage.

ghost use Rattle.std.specs.Prelude.{◌≡◌, ◌⊎◌, ◌≤◌, None, map, string_bytes, IfSome};
ghost use Rattle.outside.specs.Causes.{Rose};
ghost use Rattle.tile_top.specs.FollowWords.{follow_of};
ghost use Rattle.tile_top.specs.Follows.{Follows};
ghost use Rattle.tile_top.specs.Loads.{Loads};
ghost use Rattle.tile_top.specs.LoadWords.{load_of};
ghost use Rattle.tile_top.specs.Tops.{IsUsage};

use crate::follow_words::follow_words;
use crate::follows::follow;
use crate::loads::load_core;
use crate::workloads::load_words;
use byte_text::NoMemory;
use outside::{ReadyDoor, Sink, WaitForLinks};
use serve_run::{OUT_OF_MEMORY, end};
use std::alloc::Global;
use std::sync::Wait;

const USAGE: &[u8] =
    b"usage: tile_server replay | check | load N SEED | serve ADDR [--sessions N] | follow ADDR | ws ADDR [--sessions N] | backtest\n";

// Follows a leader, where the words ask for it; else writes the line on the usage. The status.
fn follow_or_tell<K: Sink, L: ReadyDoor, W: WaitForLinks<L>, R: Wait>(
    rt: &R,
    alloc: Global,
    words: &[String],
    sink: &mut K,
    door: &mut L,
    wait: &mut W,
) -> u8
where
    L::Link: Drop,
    ensures follow { IfSome (follow_of (map string_bytes words.now))
        (λ f. Follows f (L.shows door.old) (L.shows door.new) (W.shows wait.old) (W.shows wait.new)
        (K.held sink.old) (K.held sink.new) (K.faults sink.old) (K.faults sink.new) result) }
    ensures usage { follow_of (map string_bytes words.now) ≡ None
        → IsUsage (map string_bytes words.now) (K.held sink.old) (K.held sink.new) result }
    ensures apart { follow_of (map string_bytes words.now) ≡ None → (door.new ≡ door.old) × (wait.new ≡ wait.old) }
    ensures sink { K.faults sink.old ≤ K.faults sink.new }
    ensures door { (L.shows door.old).faults ≤ (L.shows door.new).faults }
    ensures wait { (W.shows wait.old).faults ≤ (W.shows wait.new).faults }
    ensures read { follow_of (map string_bytes words.now) ≡ None → result ≡ 3 → ⊥ }
    ensures write { follow_of (map string_bytes words.now) ≡ None
        → result ≡ 4 → Rose (K.faults sink.old) (K.faults sink.new) }
    ensures undisked { result ≡ 5 → ⊥ }
    ensures accept { result ≡ 8 → Rose (L.shows door.old).faults (L.shows door.new).faults
        ⊎ Rose (W.shows wait.old).faults (W.shows wait.new).faults }
{
    match follow_words(alloc, words) {
        Err(NoMemory) => end(sink, 7, OUT_OF_MEMORY),
        Ok(Some(asked)) => follow(rt, alloc, asked, sink, door, wait),
        Ok(None) => end(sink, 1, USAGE),
    }
}

/// Does what the words ask for, where it needs no disk; where they ask for nothing, it writes the line on the usage.
/// The status.
pub(crate) fn aside<K: Sink, L: ReadyDoor, W: WaitForLinks<L>, R: Wait>(
    rt: &R,
    alloc: Global,
    words: &[String],
    sink: &mut K,
    door: &mut L,
    wait: &mut W,
) -> u8
where
    L::Link: Drop,
    ensures load { IfSome (load_of (map string_bytes words.now))
        (λ w. Loads w (K.held sink.old) (K.held sink.new) result) }
    ensures follow { IfSome (follow_of (map string_bytes words.now))
        (λ f. Follows f (L.shows door.old) (L.shows door.new) (W.shows wait.old) (W.shows wait.new)
        (K.held sink.old) (K.held sink.new) (K.faults sink.old) (K.faults sink.new) result) }
    ensures usage { load_of (map string_bytes words.now) ≡ None → follow_of (map string_bytes words.now) ≡ None
        → IsUsage (map string_bytes words.now) (K.held sink.old) (K.held sink.new) result }
    ensures apart { follow_of (map string_bytes words.now) ≡ None → (door.new ≡ door.old) × (wait.new ≡ wait.old) }
    ensures sink { K.faults sink.old ≤ K.faults sink.new }
    ensures door { (L.shows door.old).faults ≤ (L.shows door.new).faults }
    ensures wait { (W.shows wait.old).faults ≤ (W.shows wait.new).faults }
    ensures read { follow_of (map string_bytes words.now) ≡ None → result ≡ 3 → ⊥ }
    ensures write { follow_of (map string_bytes words.now) ≡ None
        → result ≡ 4 → Rose (K.faults sink.old) (K.faults sink.new) }
    ensures undisked { result ≡ 5 → ⊥ }
    ensures accept { result ≡ 8 → Rose (L.shows door.old).faults (L.shows door.new).faults
        ⊎ Rose (W.shows wait.old).faults (W.shows wait.new).faults }
{
    match load_words(alloc, words) {
        Err(NoMemory) => end(sink, 7, OUT_OF_MEMORY),
        Ok(Some(asked)) => load_core(alloc, asked, sink),
        Ok(None) => follow_or_tell(rt, alloc, words, sink, door, wait),
    }
}
