//! The commands, their arguments and their help: `bw direct SCHEMA CSV SQL`, `bw infer [--table
//! NAME] CSV`, `bw load [--columnar] [--layout planes|slices] SCHEMA CSV OUT`, `bw encode [OPTIONS]
//! CSV OUT FIELDS`, `bw recode [--columnar] IN SCHEMA NUMBERS OUT`, `bw query [--program FILE] [--stats] TABLE
//! SQL`, `bw session [--program FILE]... [--stats] TABLE`, `bw plan SCHEMA SQL`, `bw certify SCHEMA SQL
//! PROGRAM`, `bw check SCHEMA SQL FILE`, `bw info [--verify] TABLE` and `bw dump TABLE`.
//! Each takes `--explain`, before the command or after it.
use crate::args::{CommandArgs, Marks, Selected};
use bw_file::{FileOrder, Layout};
use clap::{Arg, ArgAction, ArgMatches, Command, Error};
use std::alloc::{AllocError, Global};

/// The version of this program and, below it, the sum of the logic that proved it, as `rt version`
/// prints it.
const VERSION: &str = "0.3.0\nRattle logic dac8208d650f15bf";

/// An argument or an option of a command.
#[derive(Clone, Copy)]
enum ArgSpec {
    /// A file name: its name in the help, and what the file is.
    File(&'static str, &'static str),
    Statement,
    /// An option with a value, which may be repeated if values are appended: its name, its value's
    /// name, and its help.
    Valued(ArgAction, &'static str, &'static str, &'static str),
    Columnar,
    Verify,
    Layout,
    Lenient,
    Fill,
    Stats,
}

const SCHEMA: ArgSpec = ArgSpec::File("SCHEMA", "A schema file, as written by `bw infer`");

const CSV: ArgSpec = ArgSpec::File(
    "CSV",
    "A CSV file of whole numbers with a heading; an empty field is null",
);

const TABLE: ArgSpec = ArgSpec::File("TABLE", "A table file, as written by `bw load`");

const IN: ArgSpec = ArgSpec::File("IN", "The table file whose codes are replaced");

const NUMBERS: ArgSpec = ArgSpec::File(
    "NUMBERS",
    "For each column a line KEEP, or CODES and then a number or NULL for each code",
);

const ANY_CSV: ArgSpec = ArgSpec::File("CSV", "A CSV file with a heading, whatever its fields");

const FIELDS: ArgSpec = ArgSpec::File(
    "FIELDS",
    "The file to create or replace: what the codes of each column stand for",
);

const SEPARATOR: ArgSpec = ArgSpec::Valued(
    ArgAction::Set,
    "separator",
    "C",
    "The byte between fields (default: a comma)",
);

const QUOTE: ArgSpec = ArgSpec::Valued(
    ArgAction::Set,
    "quote",
    "C",
    "The byte around a quoted field (default: a quotation mark)",
);

const ESCAPE: ArgSpec = ArgSpec::Valued(
    ArgAction::Set,
    "escape",
    "C",
    "The byte before one of a quoted field that stands for itself (default: none)",
);

const COMMENT: ArgSpec = ArgSpec::Valued(
    ArgAction::Set,
    "comment",
    "C",
    "The first byte of lines to leave out (default: none)",
);

const COLUMNS: ArgSpec = ArgSpec::Valued(
    ArgAction::Set,
    "columns",
    "LIST",
    "The fields to load, such as 3,1,5: the heading's first is 1 (default: all)",
);

const ROWS: ArgSpec = ArgSpec::Valued(
    ArgAction::Set,
    "rows",
    "N",
    "Stop after N rows, and end FIELDS with the number of bytes before the next",
);

const OUT: ArgSpec = ArgSpec::File("OUT", "The table file to create or replace");

const FILE: ArgSpec = ArgSpec::File("FILE", "A program file, as written by `bw plan`");

const SCAN_PROGRAM: ArgSpec = ArgSpec::File(
    "PROGRAM",
    "A scan program; a certificate after it is ignored",
);

const NAME: ArgSpec = ArgSpec::Valued(
    ArgAction::Set,
    "table",
    "NAME",
    "The table's name (default: t)",
);

const PROGRAM: ArgSpec = ArgSpec::Valued(
    ArgAction::Set,
    "program",
    "FILE",
    "Scan by this program file instead of the planner's program",
);

const PROGRAMS: ArgSpec = ArgSpec::Valued(
    ArgAction::Append,
    "program",
    "FILE",
    "A program file to scan by if it's accepted for a statement; may be given again",
);

/// A command: its name, its help, an example, and its arguments.
#[derive(Clone, Copy)]
struct CommandSpec {
    name: &'static str,
    about: &'static str,
    example: &'static str,
    takes: &'static [ArgSpec],
}

/// The commands, in the order of the help.
const COMMANDS: [CommandSpec; 12] = [
    CommandSpec {
        name: "direct",
        about: "Run a statement over a CSV file",
        example: "Example: bw direct trips.schema trips.csv 'SELECT COUNT(*) FROM trips WHERE cents > 2000'",
        takes: &[SCHEMA, CSV, ArgSpec::Statement],
    },
    CommandSpec {
        name: "infer",
        about: "Write a schema for a CSV file",
        example: "Example: bw infer --table trips trips.csv > trips.schema",
        takes: &[NAME, CSV],
    },
    CommandSpec {
        name: "load",
        about: "Load a CSV file into a table file",
        example: "Example: bw load trips.schema trips.csv trips.bw",
        takes: &[ArgSpec::Columnar, ArgSpec::Layout, SCHEMA, CSV, OUT],
    },
    CommandSpec {
        name: "encode",
        about: "Load a CSV file of any fields into a table file of numbers and codes",
        example: "Example: bw encode --separator ';' trips.csv codes.bw trips.fields",
        takes: &[
            SEPARATOR,
            QUOTE,
            ESCAPE,
            COMMENT,
            ArgSpec::Lenient,
            ArgSpec::Fill,
            COLUMNS,
            ROWS,
            ArgSpec::Columnar,
            ArgSpec::Layout,
            ANY_CSV,
            OUT,
            FIELDS,
        ],
    },
    CommandSpec {
        name: "recode",
        about: "Write a table file with other numbers in place of its codes",
        example: "Example: bw recode codes.bw trips.schema trips.numbers trips.bw",
        takes: &[ArgSpec::Columnar, IN, SCHEMA, NUMBERS, OUT],
    },
    CommandSpec {
        name: "query",
        about: "Run a statement over a table file",
        example: "Example: bw query --stats trips.bw 'SELECT MAX(cents) FROM trips WHERE minutes < 10'",
        takes: &[PROGRAM, ArgSpec::Stats, TABLE, ArgSpec::Statement],
    },
    CommandSpec {
        name: "session",
        about: "Read a table file once, and run the statements on standard input",
        example: "Example: bw session trips.bw < statements.sql",
        takes: &[PROGRAMS, ArgSpec::Stats, TABLE],
    },
    CommandSpec {
        name: "plan",
        about: "Write a scan program and its certificate for a statement's condition",
        example: "Example: bw plan trips.schema 'SELECT COUNT(*) FROM trips WHERE cents > 2000' > cents.prog",
        takes: &[SCHEMA, ArgSpec::Statement],
    },
    CommandSpec {
        name: "certify",
        about: "Find the certificate of a scan program for a statement's condition",
        example: "Example: bw certify trips.schema 'SELECT COUNT(*) FROM trips WHERE cents > 2000' mine.prog > cents.prog",
        takes: &[SCHEMA, ArgSpec::Statement, SCAN_PROGRAM],
    },
    CommandSpec {
        name: "check",
        about: "Check a scan program and its certificate for a statement's condition",
        example: "Example: bw check trips.schema 'SELECT COUNT(*) FROM trips WHERE cents > 2000' cents.prog",
        takes: &[SCHEMA, ArgSpec::Statement, FILE],
    },
    CommandSpec {
        name: "info",
        about: "Print the schema of a table file, with its sizes as comments",
        example: "Example: bw info trips.bw",
        takes: &[ArgSpec::Verify, TABLE],
    },
    CommandSpec {
        name: "dump",
        about: "Print all rows of a table file as CSV",
        example: "Example: bw dump trips.bw > trips.csv",
        takes: &[TABLE],
    },
];

/// Parses the command line, whose first argument is the program's name.
pub(crate) fn matches_of<'a>(alloc: Global, words: &'a [String]) -> Result<ArgMatches<'a>, Error> {
    with_commands(alloc)?.try_get_matches_from(words)
}

fn with_commands<'a>(alloc: Global) -> Result<Command<'a>, AllocError> {
    let mut program = program(alloc);
    for spec in &COMMANDS {
        program = with_command(program, command(alloc, spec))?;
    }
    program.arg(explain_option(alloc))
}

fn with_command<'a>(
    program: Command<'a>,
    command: Result<Command<'a>, AllocError>,
) -> Result<Command<'a>, AllocError> {
    match command {
        Ok(command) => program.subcommand(command),
        Err(error) => Err(error),
    }
}

/// Returns the program without its commands.
fn program<'a>(alloc: Global) -> Command<'a> {
    Command::new(alloc, "bw")
        .about("A column store for integer tables, with proved answers")
        .version(VERSION)
        .after_help(
            "From a CSV file to answers:\n  bw infer rows.csv > rows.schema\n  bw load rows.schema rows.csv rows.bw\n  \
             bw query rows.bw 'SELECT COUNT(*) FROM t'\n\n\
             To read this page by page: bw --help 2>&1 | less",
        )
        .subcommand_required(true)
        .disable_help_subcommand(true)
}

fn command<'a>(alloc: Global, spec: &CommandSpec) -> Result<Command<'a>, AllocError> {
    let mut command = Command::new(alloc, spec.name)
        .about(spec.about)
        .after_help(spec.example);
    for arg in spec.takes {
        command = command.arg(argument(alloc, *arg))?;
    }
    Ok(command)
}

/// Returns an argument or an option. A statement may begin with `-`, as a comment does.
fn argument<'a>(alloc: Global, spec: ArgSpec) -> Arg<'a> {
    match spec {
        ArgSpec::File(name, help) => Arg::new(alloc, name).required(true).help(help),
        ArgSpec::Statement => Arg::new(alloc, "SQL")
            .required(true)
            .allow_hyphen_values(true)
            .help("A statement, such as 'SELECT COUNT(*) FROM t WHERE a < 8'"),
        ArgSpec::Valued(action, name, value, help) => Arg::new(alloc, name)
            .long(name)
            .action(action)
            .value_name(value)
            .help(help),
        ArgSpec::Layout => Arg::new(alloc, "layout")
            .long("layout")
            .action(ArgAction::Set)
            .value_parser(["planes", "slices"].as_slice())
            .help("How to store segments: as bit planes (the default) or byte slices"),
        ArgSpec::Columnar => flag(alloc, "columnar").help(
            "Write a file by columns, of which a query reads only the columns that it names",
        ),
        ArgSpec::Verify => flag(alloc, "verify").help(
            "Read the whole file first, and say whether it is a table",
        ),
        ArgSpec::Lenient => flag(alloc, "lenient").help(
            "Accept text after a closing quotation mark, and one that is open at the end",
        ),
        ArgSpec::Fill => flag(alloc, "fill").help(
            "Add empty fields to a record that has fewer than the heading",
        ),
        ArgSpec::Stats => flag(alloc, "stats").help("Print scan statistics to standard error"),
    }
}

/// Returns an option without a value.
fn flag<'a>(alloc: Global, name: &'static str) -> Arg<'a> {
    Arg::new(alloc, name).long(name).action(ArgAction::SetTrue)
}

/// Returns the program files that the command line gives a session. Errors: memory is refused.
pub(crate) fn programs_of<'a>(
    alloc: Global,
    matches: &ArgMatches<'a>,
) -> Result<Vec<&'a str>, AllocError> {
    match matches.subcommand() {
        Some(("session", found)) => match found.get_strs("program") {
            Some(programs) => Vec::from_slice(alloc, programs),
            None => Ok(Vec::new(alloc)),
        },
        _ => Ok(Vec::new(alloc)),
    }
}

/// Returns whether the command line has `--explain`.
pub(crate) fn is_explained(matches: &ArgMatches<'_>) -> bool {
    matches.get_flag("explain")
}

/// Returns the command with its arguments.
pub(crate) fn command_args<'a>(matches: &ArgMatches<'a>) -> Option<CommandArgs<'a>> {
    let (name, found) = matches.subcommand()?;
    match name {
        "query" | "session" | "info" | "dump" => table_args(name, found),
        _ => text_args(name, found),
    }
}

/// Returns a command over a table file.
fn table_args<'a>(name: &str, found: &ArgMatches<'a>) -> Option<CommandArgs<'a>> {
    let table = found.get_str("TABLE")?;
    Some(match name {
        "query" => CommandArgs::Query {
            program: found.get_str("program"),
            stats: found.get_flag("stats"),
            table,
            sql: found.get_str("SQL")?,
        },
        "session" => CommandArgs::Session {
            stats: found.get_flag("stats"),
            table,
        },
        "info" => CommandArgs::Info {
            verify: found.get_flag("verify"),
            table,
        },
        _ => CommandArgs::Dump { table },
    })
}

/// Returns a command over a CSV file or a schema.
fn text_args<'a>(name: &str, found: &ArgMatches<'a>) -> Option<CommandArgs<'a>> {
    if name == "infer" {
        return Some(CommandArgs::Infer {
            name: found.get_str("table"),
            csv: found.get_str("CSV")?,
        });
    }
    if name == "encode" {
        return encode_args(found);
    }
    let schema = found.get_str("SCHEMA")?;
    Some(match name {
        "load" => CommandArgs::Load {
            order: order_of(found),
            layout: layout_of(found),
            schema,
            csv: found.get_str("CSV")?,
            out: found.get_str("OUT")?,
        },
        "recode" => CommandArgs::Recode {
            order: order_of(found),
            table: found.get_str("IN")?,
            schema,
            numbers: found.get_str("NUMBERS")?,
            out: found.get_str("OUT")?,
        },
        "direct" => CommandArgs::Direct {
            schema,
            csv: found.get_str("CSV")?,
            sql: found.get_str("SQL")?,
        },
        "certify" => CommandArgs::Certify {
            schema,
            sql: found.get_str("SQL")?,
            program: found.get_str("PROGRAM")?,
        },
        "check" => CommandArgs::Check {
            schema,
            sql: found.get_str("SQL")?,
            file: found.get_str("FILE")?,
        },
        _ => CommandArgs::Plan {
            schema,
            sql: found.get_str("SQL")?,
        },
    })
}

/// Returns the command `bw encode`.
fn encode_args<'a>(found: &ArgMatches<'a>) -> Option<CommandArgs<'a>> {
    Some(CommandArgs::Encode {
        marks: Marks {
            separator: found.get_str("separator"),
            quote: found.get_str("quote"),
            escape: found.get_str("escape"),
            comment: found.get_str("comment"),
            is_lenient: found.get_flag("lenient"),
        },
        selected: Selected {
            rows: found.get_str("rows"),
            columns: found.get_str("columns"),
            is_filled: found.get_flag("fill"),
        },
        order: order_of(found),
        layout: layout_of(found),
        csv: found.get_str("CSV")?,
        out: found.get_str("OUT")?,
        fields: found.get_str("FIELDS")?,
    })
}

/// Returns the layout that `--layout` names; bit planes, if it isn't given.
fn layout_of(matches: &ArgMatches<'_>) -> Layout {
    match matches.get_str("layout") {
        Some("slices") => Layout::Slices,
        _ => Layout::Planes,
    }
}

/// Returns the order of blocks that `--columnar` asks for; by rows, if it isn't given.
fn order_of(matches: &ArgMatches<'_>) -> FileOrder {
    if matches.get_flag("columnar") {
        FileOrder::ByColumns
    } else {
        FileOrder::ByRows
    }
}

/// Returns the option `--explain`, which may precede the command or follow it.
fn explain_option<'a>(alloc: Global) -> Arg<'a> {
    flag(alloc, "explain")
        .global(true)
        .help("Explain errors below their line, as at a terminal")
}
