//! The text of replies and of statuses, put to a printer. None of these takes memory.
ghost use Rattle.std.specs.Prelude.{◌≡◌, ◌++◌, List, ℕ, [], ◌∷◌, codes, length};
ghost use Rattle.ids_model.specs.Text.{escaped, value_text, row_text, head_text, line, rows_text, count_text, no_space_text, reply_text, given_text};
ghost use Rattle.ids_server.specs.Printing.{PrinterPuts};
ghost use Rattle.ids_server.specs.Lines.{why_text, place_text, status_line};

use crate::printer::Printer;
use ids_base::position::LogPos;
use ids_base::reply::Reply;
use ids_base::status::{Place, Status, Why};
use ids_base::value::{Row, Value};
use ids_model::journal::Given;
use ids_outside::Sink;
use itoa::{Buffer, Integer};

// Puts a number in decimal.
fn put_number<K: Sink, I: Integer>(printer: &mut Printer<K>, number: I)
    ensures { PrinterPuts K.tells K.taken K.fault_count printer.old printer.new (I.text number) }
{
    let mut buffer = Buffer::new();
    printer.put(buffer.format(number).as_bytes());
}

// Puts a byte of a text, behind a backslash where it is a backslash or a bar.
fn put_byte<K: Sink>(printer: &mut Printer<K>, byte: u8)
    ensures { PrinterPuts K.tells K.taken K.fault_count printer.old printer.new (escaped (byte ∷ [])) }
{
    if byte == b'|' || byte == b'\\' {
        printer.put(&[b'\\', byte]);
    } else {
        printer.put(&[byte]);
    }
}

fn put_escaped<K: Sink>(printer: &mut Printer<K>, text: &[u8])
    ensures { PrinterPuts K.tells K.taken K.fault_count printer.old printer.new (escaped text.now) }
{
    for byte in text {
        put_byte(printer, *byte);
    }
}

fn put_value<K: Sink>(printer: &mut Printer<K>, value: &Value)
    ensures { PrinterPuts K.tells K.taken K.fault_count printer.old printer.new (value_text value.now) }
{
    match value {
        Value::Int(number) => put_number(printer, *number),
        Value::Chars(text) => put_escaped(printer, text.bytes()),
    }
}

fn put_row<K: Sink>(printer: &mut Printer<K>, row: &[Value])
    ensures { PrinterPuts K.tells K.taken K.fault_count printer.old printer.new (row_text row.now) }
{
    for value in row {
        put_value(printer, value);
        printer.put(b"|");
    }
}

// Puts what each line of a reply begins with.
fn put_head<K: Sink>(printer: &mut Printer<K>, session: u32, number: u32)
    ensures { PrinterPuts K.tells K.taken K.fault_count printer.old printer.new (head_text session number) }
{
    put_number(printer, session);
    printer.put(b".");
    put_number(printer, number);
    printer.put(b" ");
}

fn put_line<K: Sink>(printer: &mut Printer<K>, session: u32, number: u32, text: &[u8])
    ensures { PrinterPuts K.tells K.taken K.fault_count printer.old printer.new (line (head_text session number) text.now) }
{
    put_head(printer, session, number);
    printer.put(text);
    printer.put(b"\n");
}

fn put_count<K: Sink>(printer: &mut Printer<K>, session: u32, number: u32, count: u64)
    ensures { PrinterPuts K.tells K.taken K.fault_count printer.old printer.new (line (head_text session number) (count_text count)) }
{
    put_head(printer, session, number);
    printer.put(b"rows ");
    put_number(printer, count);
    printer.put(b"\n");
}

fn put_row_line<K: Sink>(printer: &mut Printer<K>, session: u32, number: u32, row: &[Value])
    ensures { PrinterPuts K.tells K.taken K.fault_count printer.old printer.new (line (head_text session number) (row_text row.now)) }
{
    put_head(printer, session, number);
    put_row(printer, row);
    printer.put(b"\n");
}

fn put_rows<K: Sink>(printer: &mut Printer<K>, session: u32, number: u32, rows: &[Row])
    ensures { PrinterPuts K.tells K.taken K.fault_count printer.old printer.new (rows_text (head_text session number) rows.now) }
{
    for row in rows {
        put_row_line(printer, session, number, row.as_slice());
    }
}

fn put_selected<K: Sink>(printer: &mut Printer<K>, session: u32, number: u32, rows: &[Row])
    ensures { PrinterPuts K.tells K.taken K.fault_count printer.old printer.new (rows_text (head_text session number) rows.now ++ line (head_text session number) (count_text (length rows.now))) }
{
    put_rows(printer, session, number, rows);
    put_count(printer, session, number, rows.len() as u64);
}

fn put_no_space<K: Sink>(printer: &mut Printer<K>, session: u32, number: u32, rows: u64, pages: u64)
    ensures { PrinterPuts K.tells K.taken K.fault_count printer.old printer.new (line (head_text session number) (no_space_text rows pages)) }
{
    put_head(printer, session, number);
    put_named(printer, b"error no space rows ", rows);
    printer.put(b" pages ");
    put_number(printer, pages);
    printer.put(b"\n");
}

/// Puts the lines of a reply.
pub fn put_reply<K: Sink>(printer: &mut Printer<K>, session: u32, number: u32, reply: &Reply)
    ensures { PrinterPuts K.tells K.taken K.fault_count printer.old printer.new (reply_text (head_text session number) reply.now) }
{
    match reply {
        Reply::Created => put_line(printer, session, number, b"created"),
        Reply::Changed(count) => put_count(printer, session, number, *count),
        Reply::Selected(rows) => put_selected(printer, session, number, rows.as_slice()),
        Reply::Begun => put_line(printer, session, number, b"begun"),
        Reply::Committed => put_line(printer, session, number, b"committed"),
        Reply::RolledBack => put_line(printer, session, number, b"rolled back"),
        Reply::NotInTx => put_line(printer, session, number, b"error -255"),
        Reply::InTx => put_line(printer, session, number, b"error -535"),
        Reply::Duplicate => put_line(printer, session, number, b"error duplicate"),
        Reply::NoTable => put_line(printer, session, number, b"error no table"),
        Reply::TableExists => put_line(printer, session, number, b"error table exists"),
        Reply::BadShape => put_line(printer, session, number, b"error bad shape"),
        Reply::NoSpace { rows, pages } => put_no_space(printer, session, number, *rows, *pages),
    }
}

fn put_why<K: Sink>(printer: &mut Printer<K>, why: Why)
    ensures { PrinterPuts K.tells K.taken K.fault_count printer.old printer.new (why_text why) }
{
    match why {
        Why::Cut => printer.put(b" cut\n"),
        Why::Wrong => printer.put(b" wrong\n"),
    }
}

fn put_bad_script<K: Sink>(printer: &mut Printer<K>, byte: u64, why: Why)
    ensures { PrinterPuts K.tells K.taken K.fault_count printer.old printer.new (status_line (Status.BadScript byte why)) }
{
    printer.put(b"ids: 2 bad script at byte ");
    put_number(printer, byte);
    put_why(printer, why);
}

// Puts where a record stands.
fn put_record<K: Sink>(printer: &mut Printer<K>, at: LogPos)
    ensures { PrinterPuts K.tells K.taken K.fault_count printer.old printer.new (place_text (Place.Record at)) }
{
    put_named(printer, b"record ", at.block);
    printer.put(b".");
    put_number(printer, at.index);
}

// Puts a place of damage.
fn put_place<K: Sink>(printer: &mut Printer<K>, place: Place)
    ensures { PrinterPuts K.tells K.taken K.fault_count printer.old printer.new (place_text place) }
{
    match place {
        Place::Identity => printer.put(b"identity"),
        Place::Checkpoint(page) => put_named(printer, b"checkpoint ", page),
        Place::Entry(entry) => put_named(printer, b"entry ", entry),
        Place::DataPage(page) => put_named(printer, b"page ", page),
        Place::Block(block) => put_named(printer, b"block ", block),
        Place::Record(at) => put_record(printer, at),
        Place::Row(row) => put_named(printer, b"row ", row),
    }
}

// Puts a number behind a word.
fn put_named<K: Sink, I: Integer>(printer: &mut Printer<K>, word: &[u8], number: I)
    ensures { PrinterPuts K.tells K.taken K.fault_count printer.old printer.new (word.now ++ I.text number) }
{
    printer.put(word);
    put_number(printer, number);
}

fn put_damaged<K: Sink>(printer: &mut Printer<K>, place: Place)
    ensures { PrinterPuts K.tells K.taken K.fault_count printer.old printer.new (status_line (Status.Damaged place)) }
{
    printer.put(b"ids: 9 damaged ");
    put_place(printer, place);
    printer.put(b"\n");
}

fn put_too_small<K: Sink>(printer: &mut Printer<K>, pages: u32, needed: u32)
    ensures { PrinterPuts K.tells K.taken K.fault_count printer.old printer.new (status_line (Status.TooSmall pages needed)) }
{
    put_named(printer, b"ids: 11 too small root ", pages);
    printer.put(b" needed ");
    put_number(printer, needed);
    printer.put(b"\n");
}

/// Puts the line of a status, where it has one.
pub fn put_status<K: Sink>(printer: &mut Printer<K>, status: &Status)
    ensures { PrinterPuts K.tells K.taken K.fault_count printer.old printer.new (status_line status.now) }
{
    match status {
        Status::Done | Status::SinkFault => printer.put(b""),
        Status::BadWords => printer.put(b"ids: 1 bad words\n"),
        Status::BadScript { byte, why } => put_bad_script(printer, *byte, *why),
        Status::DiskFault => printer.put(b"ids: 3 disk fault\n"),
        Status::Memory => printer.put(b"ids: 4 memory\n"),
        Status::SourceFault => printer.put(b"ids: 6 source fault\n"),
        Status::TooLong => printer.put(b"ids: 7 script too long\n"),
        Status::NotFormatted => printer.put(b"ids: 8 not formatted\n"),
        Status::Damaged(place) => put_damaged(printer, *place),
        Status::AlreadyFormatted => printer.put(b"ids: 10 already formatted\n"),
        Status::TooSmall { pages, needed } => put_too_small(printer, *pages, *needed),
        Status::LogFull => printer.put(b"ids: 13 log full\n"),
    }
}
