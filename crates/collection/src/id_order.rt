//! Where objects stand in a list in byte order of their ids.

ghost use Rattle.std.specs.Prelude.{◌≡◌, true, IfOk, IfErr};
ghost use Rattle.byte_text.specs.Names.{before};
ghost use Rattle.ordered_lists.specs.Lists.{IsHeld, IsFree};
ghost use Rattle.collection.specs.Objects.{are_by_id};

use crate::hints::Hint;
use crate::object_lists::ObjectList;
use byte_text::Name;
use ordered_lists::is_same;

/// The place of the object of this id, or, where there is none, the place where it would go. It is noted where it is
/// found.
pub(crate) fn place_noted(list: &ObjectList, id: &Name, last: &Hint) -> Result<usize, usize>
    requires { are_by_id list.now.objects ≡ true }
    ensures held { IfOk result (λ at. IsHeld (λ o. before o.id id.now) (λ o. before id.now o.id) list.now.objects at) }
    ensures free { IfErr result (λ at. IsFree (λ o. before o.id id.now) (λ o. before id.now o.id) list.now.objects at) }
{
    let place = place_of(list, id);
    if let Ok(at) = place {
        last.note(at);
    }
    place
}

/// The same, looked for first where an object was found last.
pub(crate) fn place_near(list: &ObjectList, id: &Name, last: &Hint) -> Result<usize, usize>
    requires { are_by_id list.now.objects ≡ true }
    ensures held { IfOk result (λ at. IsHeld (λ o. before o.id id.now) (λ o. before id.now o.id) list.now.objects at) }
    ensures free { IfErr result (λ at. IsFree (λ o. before o.id id.now) (λ o. before id.now o.id) list.now.objects at) }
{
    let near = last.place();
    if near < list.len() && is_same(&list.at(near).id, id) {
        return Ok(near);
    }
    place_noted(list, id, last)
}

// The same by halving, and nothing is noted.
fn place_of(list: &ObjectList, id: &Name) -> Result<usize, usize>
    requires { are_by_id list.now.objects ≡ true }
    ensures held { IfOk result (λ at. IsHeld (λ o. before o.id id.now) (λ o. before id.now o.id) list.now.objects at) }
    ensures free { IfErr result (λ at. IsFree (λ o. before o.id id.now) (λ o. before id.now o.id) list.now.objects at) }
{
    let at = list.count_before(id);
    if at == list.len() {
        return Err(at);
    }
    if is_same(&list.at(at).id, id) {
        Ok(at)
    } else {
        Err(at)
    }
}
