//! The texts that are stored for points and boxes, written.

ghost use Rattle.std.specs.Prelude.{◌≡◌, ◌++◌, ◌∷◌, [], map, OnOk, OnErr, Ok, length, take};
ghost use Rattle.planar_geom.specs.Points.{InPlane, IsBox};
ghost use Rattle.planar_geom.specs.declared.shapes.Part.TheVariants.{Spot, Face};
ghost use Rattle.geo_text.specs.Texts.{position_text, point_text, bounds_text, with_commas, shape_of};
ghost use Rattle.geo_text.specs.Texts.{corners as box_corners};

use crate::stored::{BOUNDS_HEAD, BOUNDS_TAIL, POINT_HEAD, corners};
use byte_text::{NoMemory, Text, push_i64};
use planar_geom::{BBox, Pt};

#[tactic(auto, using(byte_text::specs::TextLaws::kept))]
fn push_position(into: &mut Text, p: Pt) -> Result<(), NoMemory>
    ensures ok { OnOk result (into.new ≡ into.old ++ position_text p) }
    ensures in_plane { OnOk result (InPlane p) }
    ensures kept { take (length into.old) into.new ≡ into.old }
{
    into.push(b"[")?;
    push_i64(into, i64::from(p.x()))?;
    into.push(b",")?;
    push_i64(into, i64::from(p.y()))?;
    into.push(b"]")
}

#[tactic(auto, using(byte_text::specs::TextLaws::kept))]
fn push_point_text(into: &mut Text, p: Pt) -> Result<(), NoMemory>
    ensures ok { OnOk result (into.new ≡ into.old ++ point_text p) }
    ensures in_plane { OnOk result (InPlane p) }
    ensures kept { take (length into.old) into.new ≡ into.old }
{
    into.push(POINT_HEAD)?;
    push_position(into, p)?;
    into.push(b"}")
}

/// Appends the text that is stored for a point: it is accepted with the shape of that one point.
/// For want of memory the text stays as it was.
pub fn push_point(into: &mut Text, p: Pt) -> Result<(), NoMemory>
    ensures ok { OnOk result (into.new ≡ into.old ++ point_text p) }
    ensures accepted { OnOk result (shape_of (point_text p) ≡ Ok (Spot p ∷ [])) }
    ensures err { OnErr result (into.new ≡ into.old) }
{
    let before = into.len();
    match push_point_text(into, p) {
        Ok(()) => Ok(()),
        Err(NoMemory) => {
            into.truncate(before);
            Err(NoMemory)
        }
    }
}

#[tactic(auto, using(byte_text::specs::TextLaws::kept))]
fn push_corners(into: &mut Text, corners: [Pt; 5]) -> Result<(), NoMemory>
    ensures ok { OnOk result (into.new ≡ into.old ++ with_commas (map position_text corners)) }
    ensures kept { take (length into.old) into.new ≡ into.old }
{
    let [p, q, r, s, t] = corners;
    push_position(into, p)?;
    push_next(into, q)?;
    push_next(into, r)?;
    push_next(into, s)?;
    push_next(into, t)
}

#[tactic(auto, using(byte_text::specs::TextLaws::kept))]
fn push_next(into: &mut Text, p: Pt) -> Result<(), NoMemory>
    ensures ok { OnOk result (into.new ≡ into.old ++ 44 ∷ position_text p) }
    ensures kept { take (length into.old) into.new ≡ into.old }
{
    into.push(b",")?;
    push_position(into, p)
}

#[tactic(auto, using(byte_text::specs::TextLaws::kept))]
fn push_bounds_text(into: &mut Text, b: BBox) -> Result<(), NoMemory>
    ensures ok { OnOk result (into.new ≡ into.old ++ bounds_text b) }
    ensures is_box { OnOk result (IsBox b) }
    ensures kept { take (length into.old) into.new ≡ into.old }
{
    into.push(BOUNDS_HEAD)?;
    push_corners(into, corners(b))?;
    into.push(BOUNDS_TAIL)
}

/// Appends the text that is stored for a box: it is accepted with the shape of that one ring of its
/// corners. For want of memory the text stays as it was.
pub fn push_bounds(into: &mut Text, b: BBox) -> Result<(), NoMemory>
    ensures ok { OnOk result (into.new ≡ into.old ++ bounds_text b) }
    ensures accepted { OnOk result (shape_of (bounds_text b) ≡ Ok (Face (box_corners b ∷ []) ∷ [])) }
    ensures err { OnErr result (into.new ≡ into.old) }
{
    let before = into.len();
    match push_bounds_text(into, b) {
        Ok(()) => Ok(()),
        Err(NoMemory) => {
            into.truncate(before);
            Err(NoMemory)
        }
    }
}
