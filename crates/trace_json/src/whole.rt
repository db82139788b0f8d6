//! A run as one object.

ghost use Rattle.std.specs.Prelude.{◌≡◌, IfOk, OnOk, string_bytes};
ghost use Rattle.serde_json.specs.View.{members_view, view};
ghost use Rattle.trace_json.specs.Runs.{IsJsonOf, keys_data, others_of, run_data, told_of, tokens_data, with_keys, with_lists};
ghost use Rattle.trace_json.specs.Segments.{beside_of};

use crate::fields::{Member, object};
use crate::script::script_value;
use crate::segments::{Beside, segments_list};
use crate::totals::rows_list;
use key_material::token;
use link_script::Script;
use link_trace::{Carried, Row, Sent};
use serde_json::{Map, Value};
use std::alloc::{AllocError, Global};

/// What is told of a run.
#[derive(Clone, Copy)]
pub struct Told<'a> {
    /// Its script.
    pub script: &'a Script,
    /// The key of A.
    pub key_a: u64,
    /// The key of B.
    pub key_b: u64,
    /// The tick at which the run ended.
    pub end: u64,
    /// Each segment, in the order in which they are told.
    pub trace: &'a [Sent],
    /// What each of them carries.
    pub carried: &'a [Carried],
    /// The words of each of them.
    pub words: &'a [String],
    /// The sums of both directions of each path.
    pub rows: &'a [Row],
}

/// Both keys.
fn keys_value(alloc: Global, a: u64, b: u64) -> Result<Value, AllocError>
    ensures { IfOk result (λ value. view value ≡ keys_data a b) }
{
    object(alloc, &[Member::Digits("a", a), Member::Digits("b", b)])
}

/// The tokens of both keys (RFC 8684, section 3.2).
fn tokens_value(alloc: Global, a: u64, b: u64) -> Result<Value, AllocError>
    ensures { IfOk result (λ value. view value ≡ tokens_data a b) }
{
    keys_value(alloc, u64::from(token(a)), u64::from(token(b)))
}

/// What the segments are told by.
fn beside_in<'a>(told: &Told<'a>) -> Beside<'a>
    ensures { beside_of result ≡ others_of (told_of told.now) }
{
    Beside {
        paths: told.script.paths.as_slice(),
        end: told.end,
        checksums: told.script.checksum,
        carried: told.carried,
        words: told.words,
    }
}

/// Puts the keys and the tokens of a run, and when it ended.
fn put_keys(
    alloc: Global,
    object: &mut Map<String, Value>,
    told: &Told<'_>,
) -> Result<(), AllocError>
    ensures { OnOk result (members_view object.new.entries ≡
        with_keys (told_of told.now) (members_view object.old.entries)) }
{
    serde_json::put(object, alloc, "end", Value::from(told.end))?;
    let keys = keys_value(alloc, told.key_a, told.key_b)?;
    serde_json::put(object, alloc, "keys", keys)?;
    let tokens = tokens_value(alloc, told.key_a, told.key_b)?;
    serde_json::put(object, alloc, "tokens", tokens)
}

/// Puts its script, its segments and their sums.
fn put_lists(
    alloc: Global,
    object: &mut Map<String, Value>,
    told: &Told<'_>,
) -> Result<(), AllocError>
    ensures { OnOk result (members_view object.new.entries ≡
        with_lists (told_of told.now) (members_view object.old.entries)) }
{
    let script = script_value(alloc, told.script)?;
    serde_json::put(object, alloc, "script", script)?;
    let segments = segments_list(alloc, &beside_in(told), told.trace)?;
    serde_json::put(object, alloc, "segments", Value::Array(segments))?;
    let totals = rows_list(alloc, told.rows)?;
    serde_json::put(object, alloc, "totals", Value::Array(totals))
}

fn run_value(alloc: Global, told: &Told<'_>) -> Result<Value, AllocError>
    ensures { IfOk result (λ value. view value ≡ run_data (told_of told.now)) }
{
    let mut object = Map::new(alloc);
    put_keys(alloc, &mut object, told)?;
    put_lists(alloc, &mut object, told)?;
    Ok(Value::Object(object))
}

/// A run as the text of one JSON object (RFC 8259) without spaces or line ends, which reads back as that object.
///
/// # Errors
///
/// Only where there is no memory.
pub fn json(alloc: Global, told: &Told<'_>) -> Result<String, AllocError>
    ensures { IfOk result (λ text. IsJsonOf (told_of told.now) (string_bytes text)) }
{
    let value = run_value(alloc, told)?;
    value.to_string(alloc)
}
