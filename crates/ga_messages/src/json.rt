//! A message as JSON.
ghost use Rattle.std.specs.Prelude.{◌≡◌, IfOk, OnOk, option_map, string_bytes};
ghost use Rattle.serde_json.specs.Data.{put as with_member, string};
ghost use Rattle.serde_json.specs.Written.{compact_text};
ghost use Rattle.serde_json.specs.View.{members_view, view};
ghost use Rattle.ga_messages.specs.Json.{node_data, number_data, report_data, text_data};
ghost use Rattle.ga_messages.specs.inner.Json.{with_help, with_kind, with_place};
ghost use Rattle.ga_messages.specs.Message.{report_in};

use crate::message::Message;
use crate::shown::numbered_line;
use ga_place::Node;
use ga_source::Place;
use serde_json::{Map, Value, put};
use std::alloc::{AllocError, Global};

/// A message as one object of JSON, without a line end.
pub(crate) fn message_json(alloc: Global, message: &Message<'_>) -> Result<String, AllocError>
    ensures { IfOk result (λ text. string_bytes text ≡
        compact_text (report_data (report_in message.now))) }
{
    let value = message_value(alloc, message)?;
    value.to_string(alloc)
}

/// The object of a message.
#[tactic(auto, unfolding(crate::specs::Json::report_data))]
fn message_value(alloc: Global, message: &Message<'_>) -> Result<Value, AllocError>
    ensures { IfOk result (λ value. view value ≡ report_data (report_in message.now)) }
{
    let mut object = Map::new(alloc);
    put_place(&mut object, alloc, message)?;
    put_kind(&mut object, alloc, message)?;
    put_help(&mut object, alloc, message)?;
    Ok(Value::Object(object))
}

/// Puts the file, the line and the column of a message into its object.
fn put_place(
    object: &mut Map<String, Value>,
    alloc: Global,
    message: &Message<'_>,
) -> Result<(), AllocError>
    ensures { OnOk result (members_view object.new.entries
        ≡ with_place (report_in message.now) (members_view object.old.entries)) }
{
    let Place { line, column } = message.place;
    put_text(object, alloc, "file", message.file)?;
    put_number(object, alloc, "line", line)?;
    put_number(object, alloc, "column", column)
}

/// Puts how grave it is, its kind, and what that means into its object.
fn put_kind(
    object: &mut Map<String, Value>,
    alloc: Global,
    message: &Message<'_>,
) -> Result<(), AllocError>
    ensures { OnOk result (members_view object.new.entries
        ≡ with_kind (report_in message.now) (members_view object.old.entries)) }
{
    let meaning = numbered_line(message.shown.as_str(), 3);
    put_text(object, alloc, "level", message.level.name())?;
    put_text(object, alloc, "name", message.kind)?;
    put_text(object, alloc, "meaning", meaning)
}

/// Puts the node and the hint into its object.
fn put_help(
    object: &mut Map<String, Value>,
    alloc: Global,
    message: &Message<'_>,
) -> Result<(), AllocError>
    ensures { OnOk result (members_view object.new.entries
        ≡ with_help (report_in message.now) (members_view object.old.entries)) }
{
    let node = node_value(alloc, message.node)?;
    put(object, alloc, "node", node)?;
    let hint = text_value(alloc, &message.hint)?;
    put(object, alloc, "hint", hint)
}

/// Puts a member whose value is a text into an object.
fn put_text(
    object: &mut Map<String, Value>,
    alloc: Global,
    key: &str,
    text: &str,
) -> Result<(), AllocError>
    ensures { OnOk result (members_view object.new.entries
        ≡ with_member key.now (string text.now) (members_view object.old.entries)) }
{
    let text = String::from_str(alloc, text)?;
    put(object, alloc, key, Value::String(text))
}

/// Puts a member whose value is a number into an object.
fn put_number(
    object: &mut Map<String, Value>,
    alloc: Global,
    key: &str,
    number: usize,
) -> Result<(), AllocError>
    ensures { OnOk result (members_view object.new.entries
        ≡ with_member key.now (number_data number) (members_view object.old.entries)) }
{
    put(object, alloc, key, Value::from(number))
}

/// A text, or `null` without one.
fn text_value(alloc: Global, text: &Option<String>) -> Result<Value, AllocError>
    ensures { IfOk result (λ value. view value ≡ text_data (option_map string_bytes text.now)) }
{
    match text {
        Some(text) => Ok(Value::String(String::from_str(alloc, text.as_str())?)),
        None => Ok(Value::Null),
    }
}

/// The name of a node, or `null` without one.
fn node_value(alloc: Global, node: Option<Node>) -> Result<Value, AllocError>
    ensures { IfOk result (λ value. view value ≡ node_data node) }
{
    match node {
        Some(node) => Ok(Value::String(node.to_string(alloc)?)),
        None => Ok(Value::Null),
    }
}
