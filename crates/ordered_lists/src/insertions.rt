//! Putting an item into a list at a place.

ghost use Rattle.std.specs.Prelude.{◌≡◌, ◌≤◌, length, OnOk, OnErr};
ghost use Rattle.std.specs.List.{insert};

use byte_text::NoMemory;

/// Puts the item at the place. For want of memory the list is as before.
pub fn insert_at<T: Drop>(list: &mut Vec<T>, at: usize, item: T) -> Result<(), NoMemory>
    requires { at ≤ length list.old.items }
    ensures ok { OnOk result (list.new.items ≡ insert list.old.items at item) }
    ensures err { OnErr result (list.new.items ≡ list.old.items) }
{
    list.insert(at, item)?;
    Ok(())
}
