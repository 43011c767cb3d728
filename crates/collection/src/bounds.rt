//! The box round objects.

ghost use Rattle.std.specs.Prelude.{◌≡◌};
ghost use Rattle.collection.specs.Objects.{bounds_of};

use crate::object_lists::ObjectList;
use planar_geom::{BBox, with_shape};

/// The least box round the objects; none where there is no object.
pub(crate) fn bounds_of(objects: &ObjectList) -> Option<BBox>
    ensures { result ≡ bounds_of objects.now.objects }
{
    let mut round = None;
    for i in 0..objects.len() {
        round = Some(with_shape(round, &objects.at(i).shape));
    }
    round
}
