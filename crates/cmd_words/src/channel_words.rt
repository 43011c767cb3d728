//! The normal words of a channel.

ghost use Rattle.std.specs.Prelude.{◌≡◌, ◌&&◌, true, ◌∷◌, [], ◌++◌, map, flat_map, decimal, if◌then◌else◌, codes, IfOk};
ghost use Rattle.std.specs.Prelude.{OnOk};
ghost use Rattle.std.specs.Fmt.{signed_decimal};
ghost use Rattle.byte_text.specs.Requests.{FitsRequest};
ghost use Rattle.planar_geom.specs.Points.{Point};
ghost use Rattle.world_data.specs.Filters.{value_text};
ghost use Rattle.world_model.specs.Commands.{bound_word, test_words, glob_words, list_words, option_words};
ghost use Rattle.world_model.specs.Commands.{detect_names, command_names};
ghost use Rattle.cmd_words.specs.Areas.{text_words, given_words};
ghost use Rattle.cmd_words.specs.Channels.{kind_name, channel_words};
ghost use Rattle.cmd_words.specs.FenceAreas.{words_of};
ghost use Rattle.cmd_words.specs.ListTexts.{listed, detect_list, commands_list};

use crate::areas::SoughtArea;
use crate::fence_areas::FenceArea;
use crate::fence_options::FenceOptions;
use byte_text::{Name, NoMemory, Request, Text, push_i64, push_u64};
use planar_geom::{Area, Pt};
use std::alloc::Global;
use std::marker::Model;
use world_data::{Kind, Wanted};
use world_model::{AreaWords, Test, Tests, Value, Values};

// Words, while they are put together.
#[derive(Drop)]
struct Words {
    alloc: Global,
    list: Vec<Text>,
}

impl Model for Words {
    ghost use Rattle.std.specs.Prelude.{List, ℕ};

    ghost Value = { List (List ℕ) };

    ghost view = { λ w. w.list.items };
}

impl Words {
    // No word, with room for so many.
    fn with_room(alloc: Global, room: usize) -> Result<Words, NoMemory>
        ensures { IfOk result (λ words. words ≡ []) }
    {
        match Vec::with_capacity(alloc, room) {
            Ok(list) => Ok(Words { alloc, list }),
            Err(_) => Err(NoMemory),
        }
    }

    // Puts a word last.
    fn push(&mut self, word: &[u8]) -> Result<(), NoMemory>
        ensures { OnOk result (self.new ≡ self.old ++ word.now ∷ []) }
    {
        let text = Text::of(self.alloc, word)?;
        match self.list.push(text) {
            Ok(()) => Ok(()),
            Err(_) => Err(NoMemory),
        }
    }

    // Puts a number last.
    fn push_number(&mut self, n: i64) -> Result<(), NoMemory>
        ensures { OnOk result (self.new ≡ self.old ++ signed_decimal n ∷ []) }
    {
        let mut text = Text::new(self.alloc);
        push_i64(&mut text, n)?;
        self.push(text.bytes())
    }

    // Puts the value of a field last.
    fn push_value(&mut self, value: &Value) -> Result<(), NoMemory>
        ensures { OnOk result (self.new ≡ self.old ++ value_text value.now ∷ []) }
    {
        let mut text = Text::new(self.alloc);
        value.show(&mut text)?;
        self.push(text.bytes())
    }

    // Puts a count last.
    fn push_count(&mut self, n: u64) -> Result<(), NoMemory>
        ensures { OnOk result (self.new ≡ self.old ++ decimal n ∷ []) }
    {
        let mut text = Text::new(self.alloc);
        push_u64(&mut text, n)?;
        self.push(text.bytes())
    }

    // Puts a point last: latitude, then longitude.
    fn push_point(&mut self, at: Pt) -> Result<(), NoMemory>
        ensures { OnOk result (self.new ≡ self.old ++ signed_decimal at.y ∷ signed_decimal at.x ∷ []) }
    {
        self.push_number(i64::from(at.y()))?;
        self.push_number(i64::from(at.x()))
    }

    // The request of the words.
    fn request(self) -> Result<Request, NoMemory>
        requires { FitsRequest self }
        ensures { IfOk result (λ words. words ≡ self) }
    {
        let mut words = Request::new(self.alloc);
        for text in self.list.as_slice() {
            words.push(text.bytes())?;
        }
        Ok(words)
    }
}

/// The normal words of a channel: its kind, its key, its options, and what it watches. They are put together with room
/// for so many.
pub(crate) fn channel_words(
    alloc: Global,
    room: usize,
    kind: Kind,
    key: &Name,
    options: &FenceOptions,
    area: &FenceArea,
) -> Result<Request, NoMemory>
    requires { FitsRequest (channel_words kind key.now options.now area.now) }
    ensures { IfOk result (λ words. words ≡ channel_words kind key.now options.now area.now) }
{
    let mut words = Words::with_room(alloc, room)?;
    words.push(kind_word(kind))?;
    words.push(key.bytes())?;
    push_options(&mut words, options)?;
    push_area(&mut words, area)?;
    words.request()
}

// The word of a kind.
fn kind_word(kind: Kind) -> &'static [u8]
    ensures { result.now ≡ kind_name kind }
{
    match kind {
        Kind::Within => b"WITHIN",
        Kind::Intersects => b"INTERSECTS",
        Kind::Near => b"NEARBY",
    }
}

// Puts the words of the options last.
fn push_options(words: &mut Words, options: &FenceOptions) -> Result<(), NoMemory>
    ensures { OnOk result (words.new ≡ words.old ++ option_words options.now) }
{
    push_glob(words, &options.glob)?;
    push_tests(words, &options.tests)?;
    words.push(b"FENCE")?;
    push_nodwell(words, options.nodwell)?;
    push_detect(words, options)?;
    push_commands(words, options)
}

// Puts the words of a pattern last, where there is one.
fn push_glob(words: &mut Words, glob: &Option<Name>) -> Result<(), NoMemory>
    ensures { OnOk result (words.new ≡ words.old ++ glob_words glob.now) }
{
    match glob {
        Some(pattern) => {
            words.push(b"MATCH")?;
            words.push(pattern.bytes())
        }
        None => Ok(()),
    }
}

// Puts the words of all tests last.
fn push_tests(words: &mut Words, tests: &Tests) -> Result<(), NoMemory>
    ensures { OnOk result (words.new ≡ words.old ++ flat_map test_words tests.now) }
{
    for at in 0..tests.len() {
        push_test(words, tests.at(at))?;
    }
    Ok(())
}

// Puts the words of a test last.
fn push_test(words: &mut Words, test: &Test) -> Result<(), NoMemory>
    ensures { OnOk result (words.new ≡ words.old ++ test_words test.now) }
{
    match test {
        Test::Range(name, low, high) => {
            words.push(b"WHERE")?;
            words.push(name.bytes())?;
            push_bound(words, b"-inf", *low)?;
            push_bound(words, b"+inf", *high)
        }
        Test::Same(name, text) => {
            words.push(b"WHERE")?;
            words.push(name.bytes())?;
            words.push(text.bytes())?;
            words.push(text.bytes())
        }
        Test::Among(name, values) => {
            words.push(b"WHEREIN")?;
            words.push(name.bytes())?;
            words.push_count(values.len() as u64)?;
            push_values(words, values)
        }
    }
}

// Puts the bound of a range last, and this word where it is endless.
fn push_bound(words: &mut Words, endless: &[u8], bound: Option<i64>) -> Result<(), NoMemory>
    ensures { OnOk result (words.new ≡ words.old ++ bound_word endless.now bound ∷ []) }
{
    match bound {
        Some(n) => words.push_number(n),
        None => words.push(endless),
    }
}

// Puts the values of a test last.
fn push_values(words: &mut Words, values: &Values) -> Result<(), NoMemory>
    ensures { OnOk result (words.new ≡ words.old ++ map value_text values.now) }
{
    for at in 0..values.len() {
        words.push_value(values.at(at))?;
    }
    Ok(())
}

// Puts NODWELL last, where it was given.
fn push_nodwell(words: &mut Words, nodwell: bool) -> Result<(), NoMemory>
    ensures { OnOk result (words.new ≡ words.old ++ (if nodwell then codes "NODWELL" ∷ [] else [])) }
{
    if nodwell {
        words.push(b"NODWELL")
    } else {
        Ok(())
    }
}

// Puts DETECT and its list last, where not all is wanted.
fn push_detect(words: &mut Words, options: &FenceOptions) -> Result<(), NoMemory>
    ensures { OnOk result (words.new ≡ words.old ++ list_words (codes "DETECT") detect_names options.now.detect) }
{
    let wanted = options.wanted();
    if detects_all(wanted) {
        return Ok(());
    }
    let list = detect_text(words.alloc, wanted)?;
    words.push(b"DETECT")?;
    words.push(list.bytes())
}

// Whether all changes are wanted.
fn detects_all(wanted: Wanted) -> bool
    ensures { result ≡ (wanted.inside && (wanted.outside && (wanted.enter && (wanted.exit && (wanted.cross && true))))) }
{
    wanted.inside && wanted.outside && wanted.enter && wanted.exit && wanted.cross
}

// The changes that are wanted, with commas between them.
fn detect_text(alloc: Global, wanted: Wanted) -> Result<Text, NoMemory>
    ensures { IfOk result (λ text. text ≡ detect_list wanted) }
{
    let mut text = Text::new(alloc);
    push_listed(&mut text, wanted.inside, b"inside")?;
    push_listed(&mut text, wanted.outside, b"outside")?;
    push_listed(&mut text, wanted.enter, b"enter")?;
    push_listed(&mut text, wanted.exit, b"exit")?;
    push_listed(&mut text, wanted.cross, b"cross")?;
    Ok(text)
}

// Puts COMMANDS and its list last, where not all are wanted.
fn push_commands(words: &mut Words, options: &FenceOptions) -> Result<(), NoMemory>
    ensures { OnOk result (words.new ≡ words.old ++ list_words (codes "COMMANDS") command_names options.now.commands) }
{
    let wanted = options.wanted();
    if hears_all(wanted) {
        return Ok(());
    }
    let list = commands_text(words.alloc, wanted)?;
    words.push(b"COMMANDS")?;
    words.push(list.bytes())
}

// Whether all commands are wanted.
fn hears_all(wanted: Wanted) -> bool
    ensures { result ≡ (wanted.set && (wanted.del && (wanted.drop && true))) }
{
    wanted.set && wanted.del && wanted.drop
}

// The commands that are wanted, with commas between them.
fn commands_text(alloc: Global, wanted: Wanted) -> Result<Text, NoMemory>
    ensures { IfOk result (λ text. text ≡ commands_list wanted) }
{
    let mut text = Text::new(alloc);
    push_listed(&mut text, wanted.set, b"set")?;
    push_listed(&mut text, wanted.del, b"del")?;
    push_listed(&mut text, wanted.drop, b"drop")?;
    Ok(text)
}

// Puts a name last that is wanted, behind a comma where names stand before it.
fn push_listed(text: &mut Text, wanted: bool, name: &[u8]) -> Result<(), NoMemory>
    ensures { OnOk result (text.new ≡ listed text.old wanted name.now) }
{
    if !wanted {
        return Ok(());
    }
    if text.len() > 0 {
        text.push(b",")?;
    }
    text.push(name)
}

// Puts the words of what is watched last.
fn push_area(words: &mut Words, area: &FenceArea) -> Result<(), NoMemory>
    ensures { OnOk result (words.new ≡ words.old ++ words_of area.now) }
{
    match area {
        FenceArea::Given(sought) => push_sought(words, sought),
        FenceArea::Around(centre, radius) => {
            words.push(b"POINT")?;
            words.push_point(*centre)?;
            words.push_count(*radius as u64)
        }
        FenceArea::Beside(key, pattern, meters) => {
            words.push(b"ROAM")?;
            words.push(key.bytes())?;
            words.push(pattern.bytes())?;
            words.push_count(*meters as u64)
        }
    }
}

// Puts the words of an area last. Those of an object come when the command is done.
fn push_sought(words: &mut Words, sought: &SoughtArea) -> Result<(), NoMemory>
    ensures { OnOk result (words.new ≡ words.old ++ sought.now.words) }
{
    match &sought.from {
        AreaWords::Given(area) => push_given(words, area, &sought.text),
        AreaWords::Of(_, _) => Ok(()),
    }
}

// Puts the words of an area last that was given, with its text where it is a shape.
fn push_given(words: &mut Words, area: &Area, text: &Option<Text>) -> Result<(), NoMemory>
    ensures { OnOk result (words.new ≡ words.old ++ given_words area.now text.now) }
{
    match area {
        Area::Rect(rect) => {
            words.push(b"BOUNDS")?;
            words.push_point(rect.min())?;
            words.push_point(rect.max())
        }
        Area::Disc(centre, radius) => {
            words.push(b"CIRCLE")?;
            words.push_point(*centre)?;
            words.push_count(*radius as u64)
        }
        Area::Figure(_) => push_text(words, text),
    }
}

// Puts OBJECT and a text last, where there is one.
fn push_text(words: &mut Words, text: &Option<Text>) -> Result<(), NoMemory>
    ensures { OnOk result (words.new ≡ words.old ++ text_words text.now) }
{
    match text {
        Some(text) => {
            words.push(b"OBJECT")?;
            words.push(text.bytes())
        }
        None => Ok(()),
    }
}
