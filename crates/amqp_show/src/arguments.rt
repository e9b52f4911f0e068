//! The command line: `command` has its options, and `Settings` is what they ask for.

use amq_protocol_types::stream::Limits;
use clap::{Arg, ArgAction, ArgMatches, Command, value_parser};
use std::alloc::{AllocError, Global};

// Eight times RabbitMQ's usual `frame_max`, which what it adds to headers exceeds, and a depth that
// no known peer comes near.
const MAX_BYTES: u32 = 1_048_576;

const DEPTH: u32 = 32;

// The greatest depth that may be asked for. A level of JSON takes about a kilobyte of the stack, of
// which programs usually have 8 MiB.
const DEEPEST: i64 = 1_000;

// The peers of which it is known what they close the connection for.
const PEERS: &[&str] = &["rabbitmq", "rabbitmq-3.10", "rabbitmq-4.0", "rabbitmq-4.3"];

const COLOURS: &[&str] = &["auto", "always", "never"];

// The options without a value.
const FLAGS: &[(&str, &str)] = &[
    ("hex", "Read hexadecimal text instead of bytes"),
    ("table", "Read, or encode, a table without its type tag"),
    ("stream", "Read values one after another, as they come"),
    ("lines", "Read hexadecimal, or JSON to encode, on each line"),
    ("tree", "Show a tree of values and types (the default)"),
    ("bytes", "Show each part with its offset and its bytes"),
    ("json", "Show JSON, on a line for each value"),
    ("plain", "Show JSON with plain numbers and dates, for jq"),
    ("encode", "Read JSON, and write its encoding in hexadecimal"),
    ("raw", "With --encode: write the bytes themselves"),
    ("canonical", "Mark what isn't canonical, in a tree or parts"),
    (
        "strict",
        "Have warnings, also that more bytes follow, be a failure",
    ),
];

const EXAMPLES: &str = "\
Examples:
  A table from a log. Most have no type tag (46, an F) there: add --table.
    echo 460000000701617401016256 | amqp_show --hex
    echo 0000000701617401016256 | amqp_show --hex --table
  Where it is malformed or cut, and each part up to there with its offset:
    echo 4600000007016174010162 | amqp_show --hex --bytes
  How many values a file has, one after another:
    amqp_show --stream --json values.bin | wc -l
  The tables, one on each line, for which RabbitMQ closes the connection:
    amqp_show --lines --table --check rabbitmq tables.txt | grep '^=.*closes'
  JSON to bytes for a test:
    echo '{\"a\":true,\"b\":{\"$LongInt\":5}}' | amqp_show --encode

JSON: an integer is a LongLongInt, another number a Double, a string a LongString, null a Void.
Other types are named:
  {\"$LongInt\":5}, also ShortShortInt, ShortShortUInt, ShortInt, ShortUInt, LongUInt, Timestamp
  {\"$Float\":2.5}; NaN and others by their bits, {\"$Double\":\"7ff8000000000000\"}
  {\"$ByteArray\":\"00ff\"}, its digits, also LongString; {\"$DecimalValue\":\"314e-2\"}, 3.14
--json keeps the order of a table's pairs. --encode sorts them, and of equal keys writes the
last. A key that begins with $ is written with one more.

--check rabbitmq is rabbitmq-4.0, the newest version that this program's tests run. 4.3 was
tested by hand, and does the same; 3.11 to 3.13, 4.1 and 4.2 weren't tested.

A line that begins with ! shows the first error and its offset, one with * a warning,
since readers differ on what is there, and one with = the result.

Exit status: 0 if each value was read, also if nobody reads the output any more; 1 if a value or
JSON was rejected or is truncated; 2 after a mistake in the arguments or the input, or if a file
can't be read or the output written; 3 if a value is beyond the limits; 4 if RabbitMQ closes the
connection; 5 if --strict is given and there are warnings. Of several it is the first of 2, 1, 4,
3 and 5.";

/// A version of RabbitMQ that was tried.
#[derive(Clone, Copy, PartialEq, Eq)]
pub struct Version {
    /// What it is called.
    pub name: &'static str,
    /// What it does with equal keys.
    pub of_equal_keys: &'static str,
    /// What it does in a stream with a header that is an array or a table.
    pub of_nested_headers: &'static str,
}

impl Version {
    /// The version that a peer's name on the command line has, or the newest one that the tests of
    /// this repository run.
    pub fn of_peer(peer: &str) -> Version {
        let newest = Version {
            name: "RabbitMQ 4.0",
            of_equal_keys: "comes again; the broker delivers the first and routes by the last",
            of_nested_headers: "a stream drops such a header unless its key is CC or begins with x-",
        };
        match peer {
            "rabbitmq-3.10" => Version {
                name: "RabbitMQ 3.10",
                of_equal_keys: "comes again; the broker delivers both and routes by the first",
                of_nested_headers: "a stream drops such a header",
            },
            "rabbitmq-4.3" => Version {
                name: "RabbitMQ 4.3 (tested by hand)",
                ..newest
            },
            _ => newest,
        }
    }
}

/// How a value is shown.
#[derive(Clone, Copy, PartialEq, Eq)]
pub enum Form {
    /// As a tree.
    Tree,
    /// By each part of its encoding.
    Bytes,
    /// As JSON, in a line.
    Json,
    /// As JSON without the names of types, in a line.
    Plain,
    /// By what RabbitMQ makes of it.
    Check(Version),
}

impl Form {
    fn from_matches(matches: &ArgMatches<'_>) -> Form {
        if let Some(peer) = matches.get_str("check") {
            return Form::Check(Version::of_peer(peer));
        }
        if matches.get_flag("json") {
            Form::Json
        } else if matches.get_flag("plain") {
            Form::Plain
        } else if matches.get_flag("bytes") {
            Form::Bytes
        } else {
            Form::Tree
        }
    }

    /// Whether it is JSON of one of the two kinds.
    pub fn is_json(self) -> bool {
        matches!(self, Form::Json | Form::Plain)
    }
}

/// What is read, and how it is shown.
#[derive(Clone, Copy)]
pub struct Settings {
    /// The input is a table without its type tag, or encoding gives one.
    pub is_table: bool,
    /// It is without its length too.
    pub is_body: bool,
    /// The input is hexadecimal.
    pub hex: bool,
    /// The input is values one after another.
    pub is_stream: bool,
    /// The input has a value on each line: in hexadecimal, or with --encode as JSON.
    pub has_lines: bool,
    /// There are several files.
    pub has_files: bool,
    /// How a value is shown.
    pub form: Form,
    /// How many bytes of the input are before the value.
    pub start: u64,
    /// The line that the value is on, or 0.
    pub line: u64,
    /// What isn't canonical is noted.
    pub is_canonical: bool,
    /// The output is a terminal that is to have colours.
    pub colours: bool,
    /// A value is rejected if it has more bytes, or nests deeper.
    pub limits: Limits,
}

impl Settings {
    /// What the arguments ask for, if the output is to have colours or not.
    pub fn from_matches(matches: &ArgMatches<'_>, colours: bool) -> Settings {
        Settings {
            is_table: matches.get_flag("table"),
            is_body: false,
            hex: matches.get_flag("hex"),
            is_stream: matches.get_flag("stream"),
            has_lines: matches.get_flag("lines"),
            has_files: matches
                .get_strs("FILE")
                .is_some_and(|files| files.len() > 1),
            form: Form::from_matches(matches),
            start: matches.get_one::<u64>("skip").unwrap_or(0),
            line: 0,
            is_canonical: matches.get_flag("canonical"),
            colours,
            limits: Limits {
                frame: matches.get_one::<u32>("max-bytes").unwrap_or(MAX_BYTES),
                depth: matches.get_one::<u32>("depth").unwrap_or(DEPTH),
            },
        }
    }

    /// What is read.
    pub fn name(&self) -> &'static str {
        match self.left_out() {
            0 => "value",
            1 => "table",
            _ => "table's body",
        }
    }

    /// How many bytes of a value's encoding the input is without: a table's type tag, and its length.
    pub fn left_out(&self) -> usize {
        if self.is_body {
            5
        } else {
            usize::from(self.is_table)
        }
    }

    /// The offset in the input of what is at an offset of the value's encoding.
    pub fn offset(&self, offset: usize) -> u64 {
        let offset = offset.saturating_sub(self.left_out());
        self.start.saturating_add(offset as u64)
    }
}

/// The command line.
pub fn command<'a>(alloc: Global) -> Result<Command<'a>, AllocError> {
    let command = Command::new(alloc, "amqp_show")
        .version("0.1.0")
        .about("Shows AMQP 0-9-1 field tables, and at which byte one is malformed")
        .after_help(EXAMPLES);
    command.args(all_arguments(alloc)?)
}

fn all_arguments<'a>(alloc: Global) -> Result<Vec<Arg<'a>>, AllocError> {
    let mut arguments = Vec::new(alloc);
    for (name, help) in FLAGS {
        arguments.push(flag(alloc, name, help)?)?;
    }
    arguments.push(check(alloc)?)?;
    arguments.push(max_bytes(alloc))?;
    arguments.push(depth(alloc))?;
    arguments.push(skip(alloc)?)?;
    arguments.push(color(alloc))?;
    arguments.push(files(alloc))?;
    Ok(arguments)
}

// An option without a value. Of those in the group only one may be used.
fn flag<'a>(alloc: Global, name: &'a str, help: &'a str) -> Result<Arg<'a>, AllocError> {
    let flag = Arg::new(alloc, name)
        .long(name)
        .action(ArgAction::SetTrue)
        .help(help);
    let relations = Relations::of_flag(name);
    flag.groups(relations.groups)?
        .conflicts_with_all(relations.conflicts)?
        .requires_all(relations.needs)
}

// The groups of an option, and the options that it excludes and needs.
#[derive(Clone, Copy)]
struct Relations {
    groups: &'static [&'static str],
    conflicts: &'static [&'static str],
    needs: &'static [&'static str],
}

impl Relations {
    fn of_flag(name: &str) -> Relations {
        let (groups, conflicts, needs): (&[&str], &[&str], &[&str]) = match name {
            "hex" | "stream" => (&[], &["encode"], &[]),
            "lines" => (&[], &["stream"], &[]),
            "tree" | "bytes" => (&["form"], &[], &[]),
            "json" | "plain" | "encode" => (&["form"], &["canonical"], &[]),
            "raw" => (&[], &[], &["encode"]),
            _ => (&[], &[], &[]),
        };
        Relations {
            groups,
            conflicts,
            needs,
        }
    }
}

fn check<'a>(alloc: Global) -> Result<Arg<'a>, AllocError> {
    Arg::new(alloc, "check")
        .long("check")
        .value_name("PEER")
        .value_parser(PEERS)
        .help("Show why a peer closes the connection, or else warnings")
        .group("form")?
        .conflicts_with("canonical")
}

fn max_bytes<'a>(alloc: Global) -> Arg<'a> {
    Arg::new(alloc, "max-bytes")
        .long("max-bytes")
        .value_name("N")
        .value_parser(value_parser!(u32))
        .default_value("1048576")
        .help("Reject values of more than N bytes")
}

fn depth<'a>(alloc: Global) -> Arg<'a> {
    Arg::new(alloc, "depth")
        .long("depth")
        .value_name("N")
        .value_parser(value_parser!(u32).range(0..=DEEPEST))
        .default_value("32")
        .help("Reject containers that nest more than N deep, at most 1000")
}

fn skip<'a>(alloc: Global) -> Result<Arg<'a>, AllocError> {
    Arg::new(alloc, "skip")
        .long("skip")
        .value_name("N")
        .value_parser(value_parser!(u64))
        .help("Pass over the first N bytes of the input")
        .conflicts_with("encode")?
        .conflicts_with("lines")
}

fn color<'a>(alloc: Global) -> Arg<'a> {
    Arg::new(alloc, "color")
        .long("color")
        .value_name("WHEN")
        .value_parser(COLOURS)
        .default_value("auto")
        .help("Use colours, by default on a terminal")
}

fn files<'a>(alloc: Global) -> Arg<'a> {
    Arg::new(alloc, "FILE")
        .action(ArgAction::Append)
        .num_args(0..)
        .help("Files; - or none is the standard input")
}
