//! Exact planar geometry over whole coordinates: points, boxes, shapes and areas, and the relations
//! between them.
#![tactic(auto)]

mod boxes;
mod counts;
mod discs;
mod distances;
mod laws;
mod lists;
mod points;
mod polygons;
mod regions;
mod relations;
mod searches;
mod segments;
mod shapes;
mod wide_points;

pub use boxes::{area_box, box_of, with_shape};
pub use distances::{box_dist2, dist2, floor_root};
pub use laws::{
    area_is_whole, box_is_its_face, box_is_nearest, box_round_both_holds, boxes_apart,
    boxes_meet_in_any_order, distance_is_mutual, met_boxes_meet, met_is_near, near_boxes_meet,
    one_floor_root, segments_meet_in_any_order, shape_is_whole, way_stays_in_both_boxes,
    way_stays_in_box, within_intersects,
};
pub use lists::{Line, Parts, Points, Poly, Rings};
pub use memory::NoMemory;
pub use points::{BBox, MAX_COORD, Pt, Seg, centre};
pub use polygons::in_poly;
pub use relations::{intersects, way_meets, within};
pub use segments::{meets, orient};
pub use shapes::{Area, MAX_POSITIONS, Part, Shape};
