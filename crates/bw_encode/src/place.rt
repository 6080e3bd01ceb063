//! Where a byte is in a record, and what it does there.
ghost use Rattle.std.specs.Prelude.{◌≡◌};
ghost use Rattle.csv.specs.Machine.{step, in_field, start_field, start_record, ends_at_end};
ghost use Rattle.csv.specs.Machine.{after_end, is_byte, is_end};
ghost use Rattle.csv.specs.declared.parser.Terminator.TheVariants.{CRLF};
ghost use Rattle.bw_encode.specs.Dialect.{config_of, goes_on_bare, is_open};
ghost use Rattle.bw_encode.specs.Place.{state_of, action_of};
ghost use Rattle.bw_encode.specs.Run.{joins_bare, joins_quoted};

use crate::dialect::Dialect;

/// The place of a byte in a text: before a record, after a carriage return, in a comment, at the
/// start of a field, in an unquoted field, within quotation marks, after an escape there, or after
/// a quotation mark that may be the last one.
#[derive(Clone, Copy)]
pub(crate) enum Place {
    Before,
    Returned,
    Comment,
    Front,
    Bare,
    Quoted,
    Escaped,
    Closed,
}

/// What a byte does: it joins the field, does nothing, or ends the field or the record.
#[derive(Clone, Copy)]
pub(crate) enum Action {
    Joins,
    Skips,
    EndsField,
    EndsRecord,
}

/// What a byte does, and the place of the byte after it.
#[derive(Clone, Copy)]
pub(crate) struct Step {
    pub(crate) next: Place,
    pub(crate) action: Action,
}

/// Returns what a byte does at a place.
pub(crate) fn step_of(dialect: Dialect, place: Place, c: u8) -> Step
    ensures next { state_of result.next ≡ (step (config_of dialect) (state_of place) c).0 }
    ensures action { action_of result.action ≡ (step (config_of dialect) (state_of place) c).1 }
{
    match place {
        Place::Before => before_record(dialect, c),
        Place::Returned if c == b'\n' => skips(Place::Before),
        Place::Returned => before_record(dialect, c),
        Place::Comment if c == b'\n' => skips(Place::Before),
        Place::Comment => skips(Place::Comment),
        Place::Front => before_field(dialect, c),
        Place::Bare => in_field(dialect, c),
        Place::Quoted if c == dialect.quote => skips(Place::Closed),
        Place::Quoted if is_byte(dialect.escape, c) => skips(Place::Escaped),
        Place::Quoted | Place::Escaped => joins(Place::Quoted),
        Place::Closed if c == dialect.quote => joins(Place::Quoted),
        Place::Closed => in_field(dialect, c),
    }
}

/// Returns what a byte does before a record.
fn before_record(dialect: Dialect, c: u8) -> Step
    ensures next { state_of result.next ≡ (start_record (config_of dialect) c).0 }
    ensures action { action_of result.action ≡ (start_record (config_of dialect) c).1 }
{
    if c == b'\r' || c == b'\n' {
        skips(Place::Before)
    } else if is_byte(dialect.comment, c) {
        skips(Place::Comment)
    } else {
        before_field(dialect, c)
    }
}

/// Returns what a byte does at the start of a field.
fn before_field(dialect: Dialect, c: u8) -> Step
    ensures next { state_of result.next ≡ (start_field (config_of dialect) c).0 }
    ensures action { action_of result.action ≡ (start_field (config_of dialect) c).1 }
{
    if c == dialect.quote {
        skips(Place::Quoted)
    } else {
        in_field(dialect, c)
    }
}

/// Returns what a byte does in an unquoted field, or after a quoted one.
fn in_field(dialect: Dialect, c: u8) -> Step
    ensures next { state_of result.next ≡ (in_field (config_of dialect) c).0 }
    ensures action { action_of result.action ≡ (in_field (config_of dialect) c).1 }
{
    if c == dialect.separator {
        Step {
            next: Place::Front,
            action: Action::EndsField,
        }
    } else if c == b'\r' {
        ends_record(Place::Returned)
    } else if c == b'\n' {
        ends_record(Place::Before)
    } else {
        joins(Place::Bare)
    }
}

fn skips(next: Place) -> Step
    ensures next { result.next ≡ next }
    ensures action { result.action ≡ Action.Skips }
{
    let action = Action::Skips;
    Step { next, action }
}

fn joins(next: Place) -> Step
    ensures next { result.next ≡ next }
    ensures action { result.action ≡ Action.Joins }
{
    let action = Action::Joins;
    Step { next, action }
}

fn ends_record(next: Place) -> Step
    ensures next { result.next ≡ next }
    ensures action { result.action ≡ Action.EndsRecord }
{
    let action = Action::EndsRecord;
    Step { next, action }
}

/// Returns whether a byte in an unquoted field is one of its own.
pub(crate) fn joins_bare(separator: u8, c: u8) -> bool
    ensures { result ≡ joins_bare separator c }
{
    !(c == separator || c == b'\r' || c == b'\n')
}

/// Returns whether a byte within quotation marks is one of the field's own.
pub(crate) fn joins_quoted(dialect: Dialect, c: u8) -> bool
    ensures { result ≡ joins_quoted dialect c }
{
    !(c == dialect.quote || is_byte(dialect.escape, c))
}

/// Returns the place after the end of a line.
pub(crate) fn place_after(end: u8) -> Place
    ensures { state_of result ≡ after_end CRLF end }
{
    if end == b'\r' {
        Place::Returned
    } else {
        Place::Before
    }
}

/// Returns whether the byte is this one, if there is one.
pub(crate) fn is_byte(byte: Option<u8>, c: u8) -> bool
    ensures { result ≡ is_byte byte c }
{
    match byte {
        Some(b) => b == c,
        None => false,
    }
}

/// Returns whether a byte ends the record.
pub(crate) fn is_end(action: Action) -> bool
    ensures { result ≡ is_end (action_of action) }
{
    match action {
        Action::EndsRecord => true,
        Action::Joins | Action::Skips | Action::EndsField => false,
    }
}

/// Returns whether the text's end ends a record.
pub(crate) fn ends_at_end(place: Place) -> bool
    ensures { result ≡ ends_at_end (state_of place) }
{
    match place {
        Place::Before | Place::Returned => false,
        Place::Comment
        | Place::Front
        | Place::Bare
        | Place::Quoted
        | Place::Escaped
        | Place::Closed => true,
    }
}

/// Returns whether a field goes on after its closing quotation mark.
pub(crate) fn goes_on_bare(place: Place, next: Place) -> bool
    ensures { result ≡ goes_on_bare (state_of place) (state_of next) }
{
    match (place, next) {
        (Place::Closed, Place::Bare) => true,
        _ => false,
    }
}

/// Returns whether a quotation mark is open.
pub(crate) fn is_open(place: Place) -> bool
    ensures { result ≡ is_open (state_of place) }
{
    match place {
        Place::Quoted | Place::Escaped => true,
        _ => false,
    }
}
