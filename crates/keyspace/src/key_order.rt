//! Places among keys that stand in byte order.

ghost use Rattle.std.specs.Prelude.{◌≡◌, true, IfOk, IfErr};
ghost use Rattle.byte_text.specs.Names.{before};
ghost use Rattle.ordered_lists.specs.Lists.{ascends, IsHeld, IsFree};
ghost use Rattle.keyspace.specs.Entries.{key_before};

use crate::keyed_collections::KeyedCollection;
use byte_text::Name;
use ordered_lists::{is_before, is_same};

/// The place of this key, or, where it is not there, the place where it would go.
pub(crate) fn place_of(list: &[KeyedCollection], key: &Name) -> Result<usize, usize>
    requires { ascends key_before list.now ≡ true }
    ensures held { IfOk result (λ at. IsHeld (λ e. before e.key key.now) (λ e. before key.now e.key) list.now at) }
    ensures free { IfErr result (λ at. IsFree (λ e. before e.key key.now) (λ e. before key.now e.key) list.now at) }
{
    let at = list.partition_point(
        |keyed: &KeyedCollection| -> bool
            ensures { result ≡ before keyed.now.key key.entry.now }
        { is_before(keyed.key(), key) },
    );
    if at == list.len() {
        return Err(at);
    }
    if is_same(list[at].key(), key) {
        Ok(at)
    } else {
        Err(at)
    }
}
