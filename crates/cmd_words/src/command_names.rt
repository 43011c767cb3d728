//! The table of the commands: a row a command, of the word that calls it and what the word names.

ghost use Rattle.std.specs.Prelude.{◌≡◌, true, IfSome, IfNone};
ghost use Rattle.std.specs.List.{AllByRecursion};
ghost use Rattle.byte_text.specs.Names.{is_word};
ghost use Rattle.cmd_words.specs.CommandNames.{word_of, IsRow, AreOthers, IsNoName};

/// A command, as its name calls it.
#[derive(Clone, Copy)]
pub(crate) enum CommandName {
    Object(ObjectName),
    Search(SearchName),
    Channel(ChannelName),
    Session(SessionName),
}

/// The name of a command on objects.
#[derive(Clone, Copy)]
pub(crate) enum ObjectName {
    Set,
    Get,
    Del,
    Pdel,
    Drop,
    Fset,
    Fget,
    Expire,
    Persist,
    Ttl,
    Keys,
    Bounds,
    Stats,
    Flush,
    Shrink,
}

/// The name of a search.
#[derive(Clone, Copy)]
pub(crate) enum SearchName {
    Scan,
    Within,
    Intersects,
    Nearby,
}

/// The name of a command on channels.
#[derive(Clone, Copy)]
pub(crate) enum ChannelName {
    Setchan,
    Delchan,
    Pdelchan,
    Chans,
}

/// The name of a command on the session itself.
#[derive(Clone, Copy)]
pub(crate) enum SessionName {
    Subscribe,
    Psubscribe,
    Ping,
    Quit,
}

// A word, and what it names in any case of its ASCII letters.
struct Row {
    word: &'static [u8],
    name: CommandName,
}

const COMMANDS: [Row; 27] = [
    Row {
        word: b"SET",
        name: CommandName::Object(ObjectName::Set),
    },
    Row {
        word: b"GET",
        name: CommandName::Object(ObjectName::Get),
    },
    Row {
        word: b"DEL",
        name: CommandName::Object(ObjectName::Del),
    },
    Row {
        word: b"PDEL",
        name: CommandName::Object(ObjectName::Pdel),
    },
    Row {
        word: b"DROP",
        name: CommandName::Object(ObjectName::Drop),
    },
    Row {
        word: b"FSET",
        name: CommandName::Object(ObjectName::Fset),
    },
    Row {
        word: b"FGET",
        name: CommandName::Object(ObjectName::Fget),
    },
    Row {
        word: b"EXPIRE",
        name: CommandName::Object(ObjectName::Expire),
    },
    Row {
        word: b"PERSIST",
        name: CommandName::Object(ObjectName::Persist),
    },
    Row {
        word: b"TTL",
        name: CommandName::Object(ObjectName::Ttl),
    },
    Row {
        word: b"KEYS",
        name: CommandName::Object(ObjectName::Keys),
    },
    Row {
        word: b"BOUNDS",
        name: CommandName::Object(ObjectName::Bounds),
    },
    Row {
        word: b"STATS",
        name: CommandName::Object(ObjectName::Stats),
    },
    Row {
        word: b"FLUSHDB",
        name: CommandName::Object(ObjectName::Flush),
    },
    Row {
        word: b"AOFSHRINK",
        name: CommandName::Object(ObjectName::Shrink),
    },
    Row {
        word: b"SCAN",
        name: CommandName::Search(SearchName::Scan),
    },
    Row {
        word: b"WITHIN",
        name: CommandName::Search(SearchName::Within),
    },
    Row {
        word: b"INTERSECTS",
        name: CommandName::Search(SearchName::Intersects),
    },
    Row {
        word: b"NEARBY",
        name: CommandName::Search(SearchName::Nearby),
    },
    Row {
        word: b"SETCHAN",
        name: CommandName::Channel(ChannelName::Setchan),
    },
    Row {
        word: b"DELCHAN",
        name: CommandName::Channel(ChannelName::Delchan),
    },
    Row {
        word: b"PDELCHAN",
        name: CommandName::Channel(ChannelName::Pdelchan),
    },
    Row {
        word: b"CHANS",
        name: CommandName::Channel(ChannelName::Chans),
    },
    Row {
        word: b"SUBSCRIBE",
        name: CommandName::Session(SessionName::Subscribe),
    },
    Row {
        word: b"PSUBSCRIBE",
        name: CommandName::Session(SessionName::Psubscribe),
    },
    Row {
        word: b"PING",
        name: CommandName::Session(SessionName::Ping),
    },
    Row {
        word: b"QUIT",
        name: CommandName::Session(SessionName::Quit),
    },
];

/// The command that a word calls, in any case of its ASCII letters.
pub(crate) fn command_named(called: &[u8]) -> Option<CommandName>
    ensures some { IfSome result (λ name. is_word called.now (word_of name) ≡ true) }
    ensures none { IfNone result (IsNoName called.now) }
{
    named_among(called, &COMMANDS)
}

// What the first of these rows that a word calls names.
fn named_among(called: &[u8], rows: &[Row]) -> Option<CommandName>
    requires { AllByRecursion IsRow rows.now }
    ensures some { IfSome result (λ name. is_word called.now (word_of name) ≡ true) }
    ensures none { IfNone result (AreOthers called.now rows.now) }
{
    for row in rows {
        if called.eq_ignore_ascii_case(row.word) {
            return Some(row.name);
        }
    }
    None
}
