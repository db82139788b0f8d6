//! Values that several objects have.

ghost use Rattle.std.specs.Prelude.{◌≡◌, ◌++◌, ◌∷◌, [], map, IfOk, OnOk};
ghost use Rattle.serde_json.specs.Data.{string};
ghost use Rattle.serde_json.specs.View.{view, members_view};
ghost use Rattle.trace_json.specs.Fields.{data_of, digits_or_null, hexadecimal, name_of, number_or_null, object_of, side_letter, with_member, with_members};

use serde_json::{Map, Value};
use sides::Side;
use std::alloc::{AllocError, Global};

/// A number as a string: `0x` and its hexadecimal digits.
pub fn digits(alloc: Global, number: u64) -> Result<Value, AllocError>
    ensures { IfOk result (λ value. view value ≡ string (hexadecimal number)) }
{
    let text = format!(in alloc; "0x{number:x}")?;
    Ok(Value::String(text))
}

/// One that may be missing.
pub fn digits_or_null(alloc: Global, number: Option<u64>) -> Result<Value, AllocError>
    ensures { IfOk result (λ value. view value ≡ digits_or_null number) }
{
    match number {
        None => Ok(Value::Null),
        Some(number) => digits(alloc, number),
    }
}

/// A number that may be missing.
pub fn number_or_null(number: Option<u64>) -> Value
    ensures { view result ≡ number_or_null number }
{
    match number {
        None => Value::Null,
        Some(number) => Value::from(number),
    }
}

/// A member of an object: its name, and what it tells.
#[derive(Clone, Copy)]
pub enum Member {
    Text(&'static str, &'static str),
    Flag(&'static str, bool),
    Number(&'static str, u64),
    NumberOrNull(&'static str, Option<u64>),
    /// A number as a string of digits.
    Digits(&'static str, u64),
    DigitsOrNull(&'static str, Option<u64>),
}

fn value_of(alloc: Global, member: Member) -> Result<Value, AllocError>
    ensures { IfOk result (λ value. view value ≡ data_of member) }
{
    match member {
        Member::Text(_, text) => Value::try_from_str(alloc, text),
        Member::Flag(_, on) => Ok(Value::Bool(on)),
        Member::Number(_, number) => Ok(Value::from(number)),
        Member::NumberOrNull(_, number) => Ok(number_or_null(number)),
        Member::Digits(_, number) => digits(alloc, number),
        Member::DigitsOrNull(_, number) => digits_or_null(alloc, number),
    }
}

fn name_of(member: Member) -> &'static str
    ensures { result.now ≡ name_of member }
{
    match member {
        Member::Text(name, _) => name,
        Member::Flag(name, _) => name,
        Member::Number(name, _) => name,
        Member::NumberOrNull(name, _) => name,
        Member::Digits(name, _) => name,
        Member::DigitsOrNull(name, _) => name,
    }
}

fn put_member(alloc: Global, map: &mut Map<String, Value>, member: Member) -> Result<(), AllocError>
    ensures { OnOk result (members_view map.new.entries ≡
        with_member (members_view map.old.entries) member) }
{
    let value = value_of(alloc, member)?;
    serde_json::put(map, alloc, name_of(member), value)
}

/// Puts these members into an object.
pub fn put_members(
    alloc: Global,
    map: &mut Map<String, Value>,
    members: &[Member],
) -> Result<(), AllocError>
    ensures { OnOk result (members_view map.new.entries ≡
        with_members (members_view map.old.entries) members.now) }
{
    for member in members {
        put_member(alloc, map, *member)?;
    }
    Ok(())
}

/// The object of these members.
pub fn object(alloc: Global, members: &[Member]) -> Result<Value, AllocError>
    ensures { IfOk result (λ value. view value ≡ object_of members.now) }
{
    let mut map = Map::new(alloc);
    put_members(alloc, &mut map, members)?;
    Ok(Value::Object(map))
}

/// Puts one value more.
pub fn put(list: &mut Vec<Value>, value: Value) -> Result<(), AllocError>
    ensures { OnOk result (map view list.new.items ≡ map view list.old.items ++ view value ∷ []) }
{
    list.push(value)?;
    Ok(())
}

pub fn side_letter(side: Side) -> &'static str
    ensures { result.now ≡ side_letter side }
{
    match side {
        Side::A => "a",
        Side::B => "b",
    }
}
