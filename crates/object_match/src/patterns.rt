//! Whether a name meets MATCH.

ghost use Rattle.std.specs.Prelude.{◌≡◌, true};
ghost use Rattle.byte_text.specs.Globs.{is_sound_glob};
ghost use Rattle.world_data.specs.Filters.{meets_glob};

use byte_text::Name;

/// Whether the name meets the pattern, where there is one.
pub fn meets_glob(glob: &Option<Name>, name: &Name) -> bool
    requires { is_sound_glob glob.now ≡ true }
    ensures { result ≡ meets_glob glob.now name.now }
{
    match glob {
        Some(pattern) => glob_match::glob_meets(pattern.bytes(), name.bytes()),
        None => true,
    }
}
