//! Moves into lists with room, and between them.

ghost use Rattle.std.specs.Prelude.{◌≡◌, ◌≤◌, ◌<◌, ◌+◌, ◌++◌, [], take, drop, vec_len, vec_capacity};
ghost use Rattle.std.specs.List.{insert};

/// Puts an item at a place of a list that has room for it.
pub(crate) fn put<T: Drop>(list: &mut Vec<T>, at: usize, item: T)
    requires within { at ≤ vec_len list.old }
    requires room { vec_len list.old < vec_capacity list.old }
    ensures items { list.new.items ≡ insert list.old.items at item }
    ensures len { vec_len list.new ≡ vec_len list.old + 1 }
    ensures capacity { vec_capacity list.old ≤ vec_capacity list.new }
{
    // There is room, so nothing is refused.
    let _ = list.insert(at, item);
}

/// Moves what stands behind the first `keep` items of a list to an empty one with room for it.
pub(crate) fn move_tail<T: Drop>(from: &mut Vec<T>, keep: usize, to: &mut Vec<T>)
    requires within { keep ≤ vec_len from.old }
    requires empty { to.old.items ≡ [] }
    requires room { vec_len from.old ≤ keep + vec_capacity to.old }
    ensures kept { from.new.items ≡ take keep from.old.items }
    ensures moved { to.new.items ≡ drop keep from.old.items }
    ensures from_room { vec_capacity from.old ≤ vec_capacity from.new }
    ensures to_room { vec_capacity to.old ≤ vec_capacity to.new }
{
    while from.len() > keep {
        if let Some(item) = from.pop() {
            to.push_reserved(item);
        }
    }
    to.reverse();
}

/// Gives whichever of two lists side by side has fewer than `least` items its neighbour's nearest.
pub(crate) fn even<T: Drop>(low: &mut Vec<T>, high: &mut Vec<T>, least: usize)
    requires room { least ≤ vec_capacity low.old }
    requires high_room { least ≤ vec_capacity high.old }
    requires low_some { 1 ≤ vec_len low.old }
    requires high_some { 1 ≤ vec_len high.old }
    ensures items { low.new.items ++ high.new.items ≡ low.old.items ++ high.old.items }
    ensures low_thin { vec_len low.old < least
        → (vec_len low.new ≡ vec_len low.old + 1) × (vec_len high.new + 1 ≡ vec_len high.old) }
    ensures high_thin { least ≤ vec_len low.old → vec_len high.old < least
        → (vec_len low.new + 1 ≡ vec_len low.old) × (vec_len high.new ≡ vec_len high.old + 1) }
    ensures no_thin { least ≤ vec_len low.old → least ≤ vec_len high.old
        → (vec_len low.new ≡ vec_len low.old) × (vec_len high.new ≡ vec_len high.old) }
    ensures low_room { vec_capacity low.old ≤ vec_capacity low.new }
    ensures high_room { vec_capacity high.old ≤ vec_capacity high.new }
{
    if low.len() < least {
        low.push_reserved(high.remove(0));
    } else if high.len() < least {
        if let Some(last) = low.pop() {
            put(high, 0, last);
        }
    }
}

/// Moves all items of a list behind those of another that has room for them.
pub(crate) fn move_all<T>(from: &mut Vec<T>, to: &mut Vec<T>)
    requires room { vec_len to.old + vec_len from.old ≤ vec_capacity to.old }
    ensures items { to.new.items ≡ to.old.items ++ from.old.items }
    ensures emptied { from.new.items ≡ [] }
    ensures capacity { vec_capacity to.old ≤ vec_capacity to.new }
    ensures from_capacity { vec_capacity from.new ≡ vec_capacity from.old }
{
    // There is room, so nothing is refused.
    let _ = to.append(from);
}
