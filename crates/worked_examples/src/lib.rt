//! Worked examples of the definitions, each proved by computing it, and further laws of the machine, of which no code makes use.
#![tactic(auto)]

mod laws;

ghost use Rattle.worked_examples.specs.Areas.{HoldsAreas};
ghost use Rattle.worked_examples.specs.ByteTexts.{HoldGlobs, HoldNames, HoldNumbers, HoldStreams, HoldTexts};
ghost use Rattle.worked_examples.specs.Commands.{HoldsCommands};
ghost use Rattle.worked_examples.specs.Expiry.{HoldsExpiry};
ghost use Rattle.worked_examples.specs.LogTexts.{HoldsSides, HoldsVersions, HoldsWords};
ghost use Rattle.worked_examples.specs.Runs.{HoldsRuns};
ghost use Rattle.worked_examples.specs.Served.{HoldsServed};
ghost use Rattle.worked_examples.specs.Texts.{HoldsTexts};
ghost use Rattle.worked_examples.specs.Values.{HoldsTests, HoldsValues};
ghost use Rattle.worked_examples.specs.Workload.{HoldsSummary, HoldsWorkload};

pub use laws::{opening_laws, outcome_laws, weight_laws};

/// Names, numbers, texts of requests and replies, patterns and streams.
pub fn byte_texts()
    ensures names { HoldNames }
    ensures numbers { HoldNumbers }
    ensures texts { HoldTexts }
    ensures globs { HoldGlobs }
    ensures streams { HoldStreams }
{}

/// Commands and how others are refused.
pub fn commands()
    ensures { HoldsCommands }
{}

/// GeoJSON texts, accepted and refused.
pub fn texts()
    ensures { HoldsTexts }
{}

/// Runs of two sessions.
pub fn runs()
    ensures { HoldsRuns }
{}

/// Searches by an area with a hole.
pub fn areas()
    ensures { HoldsAreas }
{}

/// What is served so far.
pub fn served()
    ensures { HoldsServed }
{}

/// Sides of a log and what is read of them.
pub fn log_sides()
    ensures { HoldsSides }
{}

/// Records and other words.
pub fn log_words()
    ensures { HoldsWords }
{}

/// Versions of the log: the least one of a change, and sides of each.
pub fn log_versions()
    ensures { HoldsVersions }
{}

/// Values of fields, and the tests on them.
pub fn values()
    ensures values { HoldsValues }
    ensures tests { HoldsTests }
{}

/// Objects and channels that go by their deadlines.
pub fn expiry()
    ensures { HoldsExpiry }
{}

/// The generated workload: a draw, a command, a channel, the lines of a summary.
pub fn workload()
    ensures workload { HoldsWorkload }
    ensures summary { HoldsSummary }
{}
