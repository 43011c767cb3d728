//! What a reader reads of one kind: of one word, and of several.

ghost use Rattle.std.specs.Prelude.{◌≡◌, ◌≤ℤ◌, pos, IfOk};
ghost use Rattle.planar_geom.specs.Points.{pt, bounds, IsCoordinate};
ghost use Rattle.world_data.specs.Limits.{max_coord};
ghost use Rattle.world_model.specs.Kinds as kinds;
ghost use Rattle.world_model.specs.Commands.{field as a_field};
ghost use Rattle.cmd_words.specs.FenceWords.{names_of};
ghost use Rattle.cmd_words.specs.Progress.{Reads, ReadsBeside, behind_min_lat};

use crate::faults::CommandFault;
use crate::listed_names::{ListKind, ListedNames};
use crate::request_reader::Reader;
use crate::word_kinds::{
    read_between, read_bound, read_coordinate, read_geojson, read_glob, read_value,
};
use byte_text::{Name, Text};
use planar_geom::{BBox, MAX_COORD, Pt, Shape};
use world_data::{MAX_METERS, MAX_SECONDS};
use world_model::Value;

impl<'a> Reader<'a> {
    /// Reads the value of a field.
    pub(crate) fn value(&mut self) -> Result<Value, CommandFault>
        ensures { Reads kinds.value self.old self.new result }
    {
        match self.next() {
            Some(word) => read_value(self.alloc(), word),
            None => Err(self.wrong_count()),
        }
    }

    /// Reads a pattern.
    pub(crate) fn glob(&mut self) -> Result<Name, CommandFault>
        ensures { Reads kinds.glob self.old self.new result }
    {
        match self.next() {
            Some(word) => read_glob(self.alloc(), word),
            None => Err(self.wrong_count()),
        }
    }

    /// Reads a number from `least` to `most`.
    pub(crate) fn between(&mut self, least: u32, most: u32) -> Result<u32, CommandFault>
        ensures { Reads (kinds.between least most) self.old self.new result }
    {
        match self.next() {
            Some(word) => read_between(self.alloc(), word, least, most),
            None => Err(self.wrong_count()),
        }
    }

    /// Reads a number of meters.
    pub(crate) fn meters(&mut self) -> Result<u32, CommandFault>
        ensures { Reads kinds.meters self.old self.new result }
    {
        self.between(0, MAX_METERS)
    }

    /// Reads a time to live in seconds.
    pub(crate) fn seconds(&mut self) -> Result<u32, CommandFault>
        ensures { Reads kinds.seconds self.old self.new result }
    {
        self.between(1, MAX_SECONDS)
    }

    /// Reads a bound of a range; none where it is endless.
    pub(crate) fn bound(&mut self) -> Result<Option<i64>, CommandFault>
        ensures { Reads kinds.bound self.old self.new result }
    {
        match self.next() {
            Some(word) => read_bound(self.alloc(), word),
            None => Err(self.wrong_count()),
        }
    }

    /// Reads a coordinate of at least `low`.
    fn coordinate_from(&mut self, low: i64) -> Result<i64, CommandFault>
        ensures reads { Reads (kinds.coordinate_from low) self.old self.new result }
        ensures beside { ReadsBeside (kinds.coordinate_from low) self.old self.new result }
        ensures least { IfOk result (λ z. low ≤ℤ z) }
        ensures greatest { IfOk result (λ z. z ≤ℤ pos max_coord) }
    {
        match self.next() {
            Some(word) => read_coordinate(self.alloc(), word, low),
            None => Err(self.wrong_count()),
        }
    }

    /// Reads a coordinate.
    fn coordinate(&mut self) -> Result<i64, CommandFault>
        ensures reads { Reads kinds.coordinate self.old self.new result }
        ensures beside { ReadsBeside kinds.coordinate self.old self.new result }
        ensures coordinate { IfOk result (λ z. IsCoordinate z) }
    {
        self.coordinate_from(-MAX_COORD)
    }

    /// Reads a latitude and a longitude, the point's y and x.
    pub(crate) fn point(&mut self) -> Result<Pt, CommandFault>
        ensures { Reads kinds.lat_lon self.old self.new result }
    {
        let lat = self.coordinate()?;
        let lon = self.coordinate()?;
        Ok(point_at(lon, lat))
    }

    /// Reads the least latitude and longitude of a box, and then the greatest. Another form may be due beside it that
    /// does not go on with the next word.
    pub(crate) fn bounds(&mut self) -> Result<BBox, CommandFault>
        ensures reads { Reads kinds.four self.old self.new result }
        ensures beside { ReadsBeside kinds.four self.old self.new result }
    {
        let min_lat = self.coordinate()?;
        self.bounds_from(min_lat)
    }

    /// Reads the least longitude of a box with this least latitude, and then the greatest latitude and longitude.
    fn bounds_from(&mut self, min_lat: i64) -> Result<BBox, CommandFault>
        requires { IsCoordinate min_lat }
        ensures { Reads (behind_min_lat min_lat) self.old self.new result }
    {
        let min_lon = self.coordinate()?;
        let max_lat = self.coordinate_from(min_lat)?;
        let max_lon = self.coordinate_from(min_lon)?;
        Ok(box_between(min_lon, min_lat, max_lon, max_lat))
    }

    /// Reads a list of DETECT or COMMANDS.
    pub(crate) fn list_of(&mut self, kind: ListKind) -> Result<ListedNames, CommandFault>
        ensures { Reads (kinds.list_of (names_of kind)) self.old self.new result }
    {
        match self.next() {
            Some(word) => ListedNames::of(self.alloc(), word, kind),
            None => Err(self.wrong_count()),
        }
    }

    /// Reads a field's name and value.
    pub(crate) fn field(&mut self) -> Result<(Name, Value), CommandFault>
        ensures { Reads a_field self.old self.new result }
    {
        let name = self.name()?;
        let value = self.value()?;
        Ok((name, value))
    }

    /// Reads a GeoJSON text, and its shape.
    pub(crate) fn geojson(&mut self) -> Result<(Text, Shape), CommandFault>
        ensures { Reads kinds.geojson self.old self.new result }
    {
        match self.next() {
            Some(word) => read_geojson(self.alloc(), word),
            None => Err(self.wrong_count()),
        }
    }
}

// The point with these coordinates of the plane.
fn point_at(x: i64, y: i64) -> Pt
    requires x_in { IsCoordinate x }
    requires y_in { IsCoordinate y }
    ensures { result ≡ pt x y }
{
    match Pt::of(x, y) {
        Some(at) => at,
        None => unreachable!(),
    }
}

/// The box between two corners of the plane, of which the first is the least.
pub(crate) fn box_between(min_x: i64, min_y: i64, max_x: i64, max_y: i64) -> BBox
    requires min_x_in { IsCoordinate min_x }
    requires min_y_in { IsCoordinate min_y }
    requires max_x_in { IsCoordinate max_x }
    requires max_y_in { IsCoordinate max_y }
    requires x_ordered { min_x ≤ℤ max_x }
    requires y_ordered { min_y ≤ℤ max_y }
    ensures { result ≡ bounds (pt min_x min_y) (pt max_x max_y) }
{
    match BBox::of(point_at(min_x, min_y), point_at(max_x, max_y)) {
        Some(found) => found,
        None => unreachable!(),
    }
}
