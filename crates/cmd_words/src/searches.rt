//! The searches, each read from the words behind its name: SCAN, and those by area and by distance.

ghost use Rattle.std.specs.Prelude.{◌≡◌};
ghost use Rattle.cmd_words.specs.CommandNames.{IsNamed, search_word};
ghost use Rattle.cmd_words.specs.Progress.{all_words, Follows, Answers, Parses, ParsesAhead, a_name};
ghost use Rattle.cmd_words.specs.Searches.{behind_search, behind_nearby, output_and_area, box_or_area};
ghost use Rattle.cmd_words.specs.Searches.{output_and_point, ReadsReach};

use crate::areas::{SoughtArea, area_word, read_area, read_behind, rect_area};
use crate::command_names::SearchName;
use crate::faults::CommandFault;
use crate::request_reader::Reader;
use crate::scans::scan_command;
use crate::search_options::read_options;
use crate::word_kinds::read_meters;
use planar_geom::Pt;
use world_data::Kind;
use world_model::{Command, Rule, SearchCommand, Shown};

/// Reads the words behind the name of a search.
pub(crate) fn read_search(reader: &mut Reader, name: SearchName) -> Result<Command, CommandFault>
    requires { IsNamed (search_word name) reader.old }
    ensures { Answers (all_words reader.old) result }
{
    match name {
        SearchName::Scan => scan_command(reader),
        SearchName::Within => area_command(reader, Kind::Within),
        SearchName::Intersects => area_command(reader, Kind::Intersects),
        SearchName::Nearby => nearby_command(reader),
    }
}

// `key`, the options, an output, and an area.
fn area_command(reader: &mut Reader, kind: Kind) -> Result<Command, CommandFault>
    ensures { Follows reader.old (a_name (behind_search kind)) → Answers (all_words reader.old) result }
{
    let key = reader.name()?;
    let options = read_options(reader, false)?;
    let (shown, sought) = read_output_and_area(reader)?;
    reader.end()?;
    let (area, from) = sought.parts();
    Ok(Command::Search(SearchCommand::Area {
        key,
        query: options.query(Rule::InArea(kind, area), shown),
        area: from,
    }))
}

// Reads an output or none, and an area. The word BOUNDS may be either.
fn read_output_and_area(reader: &mut Reader) -> Result<(Shown, SoughtArea), CommandFault>
    ensures { ParsesAhead output_and_area reader.old reader.new result }
{
    if reader.takes(b"BOUNDS") {
        return read_box_or_area(reader);
    }
    let shown = reader.output().unwrap_or(Shown::Objects);
    let area = read_area(reader)?;
    Ok((shown, area))
}

// Reads what stands behind the word BOUNDS: an area where one is next, so that the word was an output, and else the
// numbers of a box.
fn read_box_or_area(reader: &mut Reader) -> Result<(Shown, SoughtArea), CommandFault>
    ensures { Parses box_or_area reader.old reader.new result }
{
    match area_word(reader) {
        Some(word) => {
            let area = read_behind(reader, word)?;
            Ok((Shown::Bounds, area))
        }
        None => {
            let rect = reader.bounds()?;
            Ok((Shown::Objects, rect_area(rect)))
        }
    }
}

// `key`, the options, an output, `POINT lat lon`, and meters or none.
fn nearby_command(reader: &mut Reader) -> Result<Command, CommandFault>
    ensures { Follows reader.old (a_name behind_nearby) → Answers (all_words reader.old) result }
{
    let key = reader.name()?;
    let options = read_options(reader, false)?;
    let (shown, at) = read_output_and_point(reader)?;
    let reach = read_reach(reader)?;
    Ok(Command::Search(SearchCommand::Nearby {
        key,
        query: options.query(Rule::Nearest, shown),
        at,
        reach,
    }))
}

// Reads an output or none, and `POINT lat lon`.
fn read_output_and_point(reader: &mut Reader) -> Result<(Shown, Pt), CommandFault>
    ensures { ParsesAhead output_and_point reader.old reader.new result }
{
    let shown = reader.output().unwrap_or(Shown::Objects);
    if reader.takes(b"POINT") {
        let at = reader.point()?;
        Ok((shown, at))
    } else {
        Err(reader.refusal())
    }
}

// Reads the meters or none that a command ends with.
fn read_reach(reader: &mut Reader) -> Result<Option<u32>, CommandFault>
    ensures { ReadsReach reader.old result }
{
    let Some(word) = reader.next() else {
        return Ok(None);
    };
    let reach = read_meters(reader.alloc(), word)?;
    reader.end()?;
    Ok(Some(reach))
}
