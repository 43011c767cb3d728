//! Laws of the plane: each is what a function that does nothing ensures.

ghost use Rattle.std.specs.Prelude.{◌≡◌, ◌*◌, ◌≤◌, ◌↔◌, ◌∷◌, [], true, false};
ghost use Rattle.planar_geom.specs.Points.{boxes_meet, in_box, box_round, box_round_both, box_dist2 as distance_to_box};
ghost use Rattle.planar_geom.specs.Points.{dist2 as distance, centre as box_centre, box_of_disc, HasOneFloorRoot};
ghost use Rattle.planar_geom.specs.Figures.{meets as segments_meet, segment};
ghost use Rattle.planar_geom.specs.Shapes.{box_of as box_of_shape};
ghost use Rattle.planar_geom.specs.Relations.{intersects as is_met, within as is_inside, way_meets as is_on_way};
ghost use Rattle.planar_geom.specs.Relations.{area_box as box_of_area, face_of, IsArea};
ghost use Rattle.planar_geom.specs.declared.shapes.Part.TheVariants.{Chain};
ghost use Rattle.planar_geom.specs.Nearness.{IsWholeShape, MetIsNear};

use crate::points::{BBox, Pt, Seg, centre};
use crate::shapes::{Area, Shape};

/// Two segments meet in either order, and whichever end of one comes first.
pub fn segments_meet_in_any_order(_s: Seg, _t: Seg)
    ensures order { segments_meet _s _t ≡ segments_meet _t _s }
    ensures ends { segments_meet (segment _s.b _s.a) _t ≡ segments_meet _s _t }
{}

/// A shape meets a box where it meets the face of its four corners.
pub fn box_is_its_face(_shape: &Shape, _b: BBox)
    ensures { is_met _shape.now (Area.Rect _b) ≡ is_met _shape.now (Area.Figure (face_of _b ∷ [])) }
{}

/// What lies in an area meets it.
pub fn within_intersects(shape: &Shape, area: &Area)
    ensures { is_inside shape.now area.now ≡ true → is_met shape.now area.now ≡ true }
{
    // This call shows the proof that the shape is whole.
    let _parts = shape.parts();
    area_is_whole(area);
}

/// Two shapes whose boxes do not meet do not meet.
pub fn boxes_apart(_shape: &Shape, _other: &Shape)
    ensures { boxes_meet (box_of_shape _shape.now) (box_of_shape _other.now) ≡ false
        → is_met _shape.now (Area.Figure _other.now) ≡ false }
{}

/// The box of the way between two points is the least box round both, and an area that the way meets has
/// a box that meets it.
pub fn way_stays_in_box(from: Pt, to: Pt, area: &Area)
    ensures way { box_of_shape (Chain (from ∷ to ∷ []) ∷ []) ≡ box_round from (to ∷ []) }
    ensures area { is_on_way from to area.now ≡ true
        → boxes_meet (box_round from (to ∷ [])) (box_of_area area.now) ≡ true }
{
    // This call shows the proof that it is a point of the plane.
    let _east = from.x();
    area_is_whole(area);
}

/// The way between the centres of two boxes stays in the least box round both: an area that it meets has
/// a box that meets that one.
pub fn way_stays_in_both_boxes(old: BBox, new: BBox, area: &Area)
    ensures { is_on_way (box_centre old) (box_centre new) area.now ≡ true
        → boxes_meet (box_round_both old new) (box_of_area area.now) ≡ true }
{
    // These calls show the proof that both are boxes of the plane.
    let _low = old.min();
    let _other_low = new.min();
    way_stays_in_box(centre(old), centre(new), area);
}

/// What meets an area, or lies in it, has a box that meets the area's box.
pub fn met_boxes_meet(shape: &Shape, area: &Area)
    ensures met { is_met shape.now area.now ≡ true → boxes_meet (box_of_shape shape.now) (box_of_area area.now) ≡ true }
    ensures inside { is_inside shape.now area.now ≡ true
        → boxes_meet (box_of_shape shape.now) (box_of_area area.now) ≡ true }
{
    // This call shows the proof that it is a box of the plane.
    let _low = shape.bounds().min();
    within_intersects(shape, area);
    area_is_whole(area);
}

/// A box that is at most a distance away from a point, or whose centre is, meets the box round the disc of
/// that point and distance.
pub fn near_boxes_meet(_p: Pt, _radius: u32, b: BBox)
    ensures box_near { distance_to_box _p b ≤ _radius * _radius → boxes_meet b (box_of_disc _p _radius) ≡ true }
    ensures centre_near { distance _p (box_centre b) ≤ _radius * _radius
        → boxes_meet b (box_of_disc _p _radius) ≡ true }
{
    // This call shows the proof that it is a box of the plane.
    let _low = b.min();
}

/// Two points are as far from each other in either order.
pub fn distance_is_mutual(_p: Pt, _q: Pt)
    ensures { distance _p _q ≡ distance _q _p }
{}

/// Two boxes meet in either order.
pub fn boxes_meet_in_any_order(_b: BBox, _c: BBox)
    ensures { boxes_meet _b _c ≡ boxes_meet _c _b }
{}

/// The least box round two boxes holds what one of them holds, the centres of both too, and meets each box
/// that one of them meets.
pub fn box_round_both_holds(old: BBox, new: BBox, _other: BBox, _p: Pt)
    ensures holds_old { in_box old _p ≡ true → in_box (box_round_both old new) _p ≡ true }
    ensures holds_new { in_box new _p ≡ true → in_box (box_round_both old new) _p ≡ true }
    ensures old_centre { in_box (box_round_both old new) (box_centre old) ≡ true }
    ensures new_centre { in_box (box_round_both old new) (box_centre new) ≡ true }
    ensures meets_old { boxes_meet old _other ≡ true → boxes_meet (box_round_both old new) _other ≡ true }
    ensures meets_new { boxes_meet new _other ≡ true → boxes_meet (box_round_both old new) _other ≡ true }
{
    // These calls show the proof that both are boxes of the plane.
    let _low = old.min();
    let _other_low = new.min();
}

/// A number has exactly one root rounded down, the one that is computed.
pub fn one_floor_root()
    ensures { HasOneFloorRoot }
{}

/// A box is no distance away exactly from the points that it holds, and at most as far away as any of
/// them.
pub fn box_is_nearest(_p: Pt, _b: BBox, _q: Pt)
    ensures inside { (distance_to_box _p _b ≡ 0) ↔ (in_box _b _p ≡ true) }
    ensures nearest { in_box _b _q ≡ true → distance_to_box _p _b ≤ distance _p _q }
{}

/// Every shape is whole, with a box of the plane.
pub fn shape_is_whole(shape: &Shape)
    ensures { IsWholeShape shape.now }
{
    // This call shows the proof that it is a box of the plane.
    let _low = shape.bounds().min();
}

/// Of all whole shapes and areas: what is met is near.
pub fn met_is_near()
    ensures { MetIsNear }
{}

/// Every area is whole: made of a box, of points of the plane or of a shape.
pub fn area_is_whole(area: &Area)
    ensures { IsArea area.now }
{
    match area {
        Area::Rect(b) => {
            // This call shows the proof that it is a box of the plane.
            let _low = b.min();
        }
        Area::Disc(centre, _) => {
            // This call shows the proof that it is a point of the plane.
            let _east = centre.x();
        }
        Area::Figure(shape) => {
            // This call shows the proof that the shape is whole.
            let _parts = shape.parts();
        }
    }
}
