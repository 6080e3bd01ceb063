//! A command and its arguments.
ghost use Rattle.std.specs.Prelude.{◌≡◌};
ghost use Rattle.bw_cli.specs.Arguments.{csv_of, name_of, numbers_of, out_of, program_of};
ghost use Rattle.bw_cli.specs.Arguments.{schema_of, sql_of, table_of, usage_of};

use bw_file::{FileOrder, Layout};

/// The options of `bw encode` that name marks of a CSV text, as they were given, and whether text
/// may follow a closing quotation mark.
#[derive(Clone, Copy)]
pub struct Marks<'a> {
    pub separator: Option<&'a str>,
    pub quote: Option<&'a str>,
    pub escape: Option<&'a str>,
    pub comment: Option<&'a str>,
    pub is_lenient: bool,
}

/// The options of `bw encode` that select rows and fields of a CSV text, as they were given, and
/// whether records may have fewer fields than the heading.
#[derive(Clone, Copy)]
pub struct Selected<'a> {
    pub rows: Option<&'a str>,
    pub columns: Option<&'a str>,
    pub is_filled: bool,
}

/// A command and its arguments. All but the SQL and the name of a table are file names.
#[derive(Clone, Copy)]
pub enum CommandArgs<'a> {
    Direct {
        schema: &'a str,
        csv: &'a str,
        sql: &'a str,
    },
    Infer {
        name: Option<&'a str>,
        csv: &'a str,
    },
    Load {
        order: FileOrder,
        layout: Layout,
        schema: &'a str,
        csv: &'a str,
        out: &'a str,
    },
    Query {
        program: Option<&'a str>,
        stats: bool,
        table: &'a str,
        sql: &'a str,
    },
    Encode {
        marks: Marks<'a>,
        selected: Selected<'a>,
        order: FileOrder,
        layout: Layout,
        csv: &'a str,
        out: &'a str,
        fields: &'a str,
    },
    Recode {
        order: FileOrder,
        table: &'a str,
        schema: &'a str,
        numbers: &'a str,
        out: &'a str,
    },
    /// Its program files, any number of them, are a field of the invocation.
    Session {
        stats: bool,
        table: &'a str,
    },
    Info {
        verify: bool,
        table: &'a str,
    },
    Dump {
        table: &'a str,
    },
    Plan {
        schema: &'a str,
        sql: &'a str,
    },
    Certify {
        schema: &'a str,
        sql: &'a str,
        program: &'a str,
    },
    Check {
        schema: &'a str,
        sql: &'a str,
        file: &'a str,
    },
}

impl<'a> CommandArgs<'a> {
    /// Returns the file that SCHEMA names, if the command has this argument.
    pub fn schema(self) -> Option<&'a str>
        ensures { result ≡ schema_of self.entry }
    {
        match self {
            CommandArgs::Direct { schema, .. }
            | CommandArgs::Load { schema, .. }
            | CommandArgs::Recode { schema, .. }
            | CommandArgs::Plan { schema, .. }
            | CommandArgs::Certify { schema, .. }
            | CommandArgs::Check { schema, .. } => Some(schema),
            _ => None,
        }
    }

    /// Returns the file that CSV names, if the command has this argument.
    pub fn csv(self) -> Option<&'a str>
        ensures { result ≡ csv_of self.entry }
    {
        match self {
            CommandArgs::Direct { csv, .. }
            | CommandArgs::Infer { csv, .. }
            | CommandArgs::Encode { csv, .. }
            | CommandArgs::Load { csv, .. } => { Some(csv) }
            _ => None,
        }
    }

    /// Returns the table file that is read.
    pub fn table(self) -> Option<&'a str>
        ensures { result ≡ table_of self.entry }
    {
        match self {
            CommandArgs::Query { table, .. }
            | CommandArgs::Recode { table, .. }
            | CommandArgs::Session { table, .. }
            | CommandArgs::Info { table, .. }
            | CommandArgs::Dump { table } => Some(table),
            _ => None,
        }
    }

    /// Returns the file of a program that is read, with or without its certificate.
    pub fn program(self) -> Option<&'a str>
        ensures { result ≡ program_of self.entry }
    {
        match self {
            CommandArgs::Query { program, .. } => program,
            CommandArgs::Certify { program, .. } => Some(program),
            CommandArgs::Check { file, .. } => Some(file),
            _ => None,
        }
    }

    /// Returns the file that NUMBERS names, if the command has this argument.
    pub fn numbers(self) -> Option<&'a str>
        ensures { result ≡ numbers_of self.entry }
    {
        match self {
            CommandArgs::Recode { numbers, .. } => Some(numbers),
            _ => None,
        }
    }

    /// Returns the text that SQL stands for, if the command has this argument.
    pub fn sql(self) -> Option<&'a str>
        ensures { result ≡ sql_of self.entry }
    {
        match self {
            CommandArgs::Direct { sql, .. }
            | CommandArgs::Query { sql, .. }
            | CommandArgs::Plan { sql, .. }
            | CommandArgs::Certify { sql, .. }
            | CommandArgs::Check { sql, .. } => Some(sql),
            _ => None,
        }
    }

    /// Returns the table name that the command line gives, if it gives one.
    pub fn name(self) -> Option<&'a str>
        ensures { result ≡ name_of self.entry }
    {
        match self {
            CommandArgs::Infer { name, .. } => name,
            _ => None,
        }
    }

    /// Returns the command's name and its arguments in order, as the help prints them.
    pub fn usage(self) -> &'static str
        ensures { result.now ≡ usage_of self.entry }
    {
        match self {
            CommandArgs::Direct { .. } => "bw direct SCHEMA CSV SQL",
            CommandArgs::Infer { .. } => "bw infer [--table NAME] CSV",
            CommandArgs::Load { .. } => {
                "bw load [--columnar] [--layout planes|slices] SCHEMA CSV OUT"
            },
            CommandArgs::Encode { .. } => "bw encode [OPTIONS] CSV OUT FIELDS",
            CommandArgs::Recode { .. } => "bw recode [--columnar] IN SCHEMA NUMBERS OUT",
            CommandArgs::Query { .. } => "bw query [--program FILE] [--stats] TABLE SQL",
            CommandArgs::Session { .. } => "bw session [--program FILE]... [--stats] TABLE",
            CommandArgs::Info { .. } => "bw info [--verify] TABLE",
            CommandArgs::Dump { .. } => "bw dump TABLE",
            CommandArgs::Plan { .. } => "bw plan SCHEMA SQL",
            CommandArgs::Certify { .. } => "bw certify SCHEMA SQL PROGRAM",
            CommandArgs::Check { .. } => "bw check SCHEMA SQL FILE",
        }
    }

    /// Returns the file that is written.
    pub fn out(self) -> Option<&'a str>
        ensures { result ≡ out_of self.entry }
    {
        match self {
            CommandArgs::Load { out, .. }
            | CommandArgs::Encode { out, .. }
            | CommandArgs::Recode { out, .. } => Some(out),
            _ => None,
        }
    }
}
