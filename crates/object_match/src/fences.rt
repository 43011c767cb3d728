//! Whether an object is in a fence.

ghost use Rattle.std.specs.Prelude.{◌≡◌, true};
ghost use Rattle.byte_text.specs.Globs.{is_sound_glob};
ghost use Rattle.fence_model.specs.Fences.{in_watch, is_in_fence, meets_fence};

use crate::areas::meets_area;
use crate::fields::passes;
use crate::patterns::meets_glob;
use world_data::{Fence, Object, Watch};

/// Whether the object meets the MATCH and the tests of the fence.
pub fn meets_fence(fence: &Fence, object: &Object) -> bool
    requires { is_sound_glob fence.now.glob ≡ true }
    ensures { result ≡ meets_fence fence.now object.now }
{
    meets_glob(&fence.glob, &object.id) && passes(&fence.tests, &object.fields)
}

// Whether the object is in the area that is watched. One that roams watches none.
fn in_watch(watch: &Watch, object: &Object) -> bool
    ensures { result ≡ in_watch watch.now object.now }
{
    match watch {
        Watch::Zone(kind, area) => meets_area(*kind, area, &object.shape),
        Watch::Roam(_, _, _, _) => false,
    }
}

/// Whether the object is in the fence: it meets the pattern and the tests, and it is in the area that is watched.
pub fn is_in_fence(fence: &Fence, object: &Object) -> bool
    requires { is_sound_glob fence.now.glob ≡ true }
    ensures { result ≡ is_in_fence fence.now object.now }
{
    meets_fence(fence, object) && in_watch(&fence.watch, object)
}
