//! SCAN: the objects of one key by id.

ghost use Rattle.std.specs.Prelude.{◌≡◌};
ghost use Rattle.world_model.specs.Commands.{scan_rule};
ghost use Rattle.cmd_words.specs.Progress.{all_words, Follows, Answers, a_name};
ghost use Rattle.cmd_words.specs.Scans.{behind_scan, scan_of as the_scan};

use crate::faults::CommandFault;
use crate::request_reader::Reader;
use crate::search_options::{SearchOptions, read_options};
use byte_text::Name;
use world_model::{Command, Rule, SearchCommand, Shown};

/// `key`, the options, and an output.
pub(crate) fn scan_command(reader: &mut Reader) -> Result<Command, CommandFault>
    ensures { Follows reader.old (a_name behind_scan) → Answers (all_words reader.old) result }
{
    let key = reader.name()?;
    let options = read_options(reader, true)?;
    let Some(shown) = reader.output() else {
        reader.stop()?;
        return Ok(scan_of(key, options, Shown::Objects));
    };
    reader.end()?;
    Ok(scan_of(key, options, shown))
}

// The SCAN of a key, with these options and this output.
fn scan_of(key: Name, options: SearchOptions, shown: Shown) -> Command
    ensures { result ≡ the_scan key options shown }
{
    let rule = rule_of(options.down);
    Command::Search(SearchCommand::Scan {
        key,
        query: options.query(rule, shown),
    })
}

// By id upwards, unless DESC was read.
fn rule_of(down: Option<bool>) -> Rule
    ensures { result ≡ scan_rule down }
{
    match down {
        Some(true) => Rule::Descending,
        _ => Rule::All,
    }
}
