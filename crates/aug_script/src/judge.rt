//! What a record is read as, or its first fault.
ghost use Rattle.std.specs.Prelude.{◌≡◌, [], Option, Some, drop, find, slice_index_or, IfOk};
ghost use Rattle.std.specs.List.{list_all};
ghost use Rattle.std.specs.Str.{bytes_eq};
ghost use Rattle.csv.specs.Records.{fields_of};
ghost use Rattle.aug_script.specs.inside.Items.{CanTake};
ghost use Rattle.aug_script.specs.Script.{are_printable, bounded_item, is_number as is_number_field, item_of, item_written, items_with, named_item, number_in as number_at_place};
ghost use Rattle.aug_script.specs.declared.item.Item.TheVariants as item;

use crate::field::{is_lane, is_number, is_printable, is_star, number};
use crate::open_rounds::OpenRounds;
use crate::{Item, Limits, Row, ScriptError};
use csv::ByteRecord;

/// The field at a place, or an empty one past the last.
fn field(fields: &ByteRecord, place: usize) -> &[u8]
    ensures { result.now ≡ slice_index_or (fields_of fields.now) place [] }
{
    fields.get(place).unwrap_or(&[])
}

/// Whether every byte is printable.
fn are_fields_printable(fields: &ByteRecord) -> bool
    ensures { result ≡ are_printable (fields_of fields.now) }
{
    for place in 0..fields.len() {
        if !is_printable(field(fields, place)) {
            return false;
        }
    }
    true
}

/// Whether every field behind the lane and the verb is a number.
fn are_arguments_numbers(fields: &ByteRecord) -> bool
    ensures { result ≡ list_all is_number_field (drop 2 (fields_of fields.now)) }
{
    for place in 2..fields.len() {
        if !is_number(field(fields, place)) {
            return false;
        }
    }
    true
}

/// The number that the field at a place writes, or 0 if it is none.
fn number_in(fields: &ByteRecord, place: usize) -> u32
    ensures { result ≡ number_at_place (fields_of fields.now) place }
{
    if is_number(field(fields, place)) {
        number(field(fields, place))
    } else {
        0
    }
}

/// The item that a record's word names, if it names one. If it is a row, it has this number.
fn named(row_number: u64, fields: &ByteRecord) -> Option<Item>
    ensures { result ≡ find (λ next. bytes_eq (slice_index_or (fields_of fields.now) 1 []) (item_written next).0) (items_with row_number (fields_of fields.now)) }
{
    let word = field(fields, 1);
    let first = number_in(fields, 2);
    if is_star(field(fields, 0)) {
        Item::starred(word, first)
    } else {
        Item::in_lane(
            row_number,
            number_in(fields, 0),
            word,
            first,
            number_in(fields, 3),
        )
    }
}

/// The row, or its fault if its lane or its arguments are out of range or its lane has no update left.
fn bounded(limits: &Limits, read: &OpenRounds, row: Row) -> Result<Item, ScriptError>
    ensures item { result ≡ bounded_item limits.now read.now (item.Row row) }
    ensures can { IfOk result CanTake }
{
    if row.lane >= limits.workers() || !row.verb.is_in_bounds(read.bits()) {
        return Err(ScriptError::OutOfRange(read.next_number()));
    }
    if row.verb.is_update() && read.updates(row.lane) >= limits.updates() as usize {
        return Err(ScriptError::TooManyUpdates(read.next_number()));
    }
    Ok(Item::Row(row))
}

/// `bits` bits for the keys from now on, or the first fault of that.
fn growing(limits: &Limits, read: &OpenRounds, bits: u32) -> Result<Item, ScriptError>
    ensures item { result ≡ bounded_item limits.now read.now (item.Grow bits) }
    ensures can { IfOk result CanTake }
{
    let row_number = read.next_number();
    if bits < read.bits() || bits > 16 {
        return Err(ScriptError::OutOfRange(row_number));
    }
    if !read.is_empty() {
        return Err(ScriptError::BadPlace(row_number));
    }
    if !limits.has_table(bits) {
        return Err(ScriptError::TooWide(row_number));
    }
    Ok(Item::Grow(bits))
}

/// The item that a record names, or the first fault of its arguments and of the item's bounds.
fn checked(
    limits: &Limits,
    read: &OpenRounds,
    fields: &ByteRecord,
    item: Item,
) -> Result<Item, ScriptError>
    ensures item { result ≡ named_item limits.now read.now (drop 2 (fields_of fields.now)) (Some item) }
    ensures can { IfOk result CanTake }
{
    if fields.len().saturating_sub(2) != item.arity() {
        return Err(ScriptError::BadArity(read.next_number()));
    }
    if !are_arguments_numbers(fields) {
        return Err(ScriptError::BadNumber(read.next_number()));
    }
    match item {
        Item::Row(row) => bounded(limits, read, row),
        Item::End => Ok(Item::End),
        Item::Grow(bits) => growing(limits, read, bits),
    }
}

/// What the record behind those that were read so far is read as, or its first fault.
pub(crate) fn judge(
    limits: &Limits,
    read: &OpenRounds,
    fields: &ByteRecord,
) -> Result<Item, ScriptError>
    ensures item { result ≡ item_of limits.now read.now (fields_of fields.now) }
    ensures can { IfOk result CanTake }
{
    let row_number = read.next_number();
    if !are_fields_printable(fields) {
        return Err(ScriptError::BadCsv(row_number));
    }
    if !is_lane(field(fields, 0)) {
        return Err(ScriptError::BadLane(row_number));
    }
    let Some(item) = named(row_number, fields) else {
        return Err(ScriptError::BadVerb(row_number));
    };
    checked(limits, read, fields, item)
}
