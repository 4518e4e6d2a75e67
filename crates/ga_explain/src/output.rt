ghost use Rattle.std.specs.Prelude.{◌≡◌, ◌++◌, IfOk, OnOk, flat_map, map, string_bytes};
ghost use Rattle.ga_explain.specs.Output.{explain_output, name_line};
ghost use Rattle.ga_explain.specs.Table.{entries};
ghost use Rattle.ga_explain.specs.Topic.{entry_of};

use crate::topic::{Topic, topics};
use std::alloc::{AllocError, Global};

/// The text of a topic; without one a line for the name of each. Fails only when out of memory.
pub fn output(alloc: Global, topic: Option<Topic>) -> Result<String, AllocError>
    ensures { IfOk result (λ text. string_bytes text ≡ explain_output topic) }
{
    match topic {
        Some(topic) => String::from_str(alloc, topic.text),
        None => names(alloc),
    }
}

/// A line for the name of each topic.
fn names(alloc: Global) -> Result<String, AllocError>
    ensures { IfOk result (λ text. string_bytes text ≡ flat_map name_line entries) }
{
    let topics = topics(alloc)?;
    let mut text = String::new(alloc);
    push_names(&mut text, &topics)?;
    Ok(text)
}

/// Appends a line for the name of each of these topics.
fn push_names(text: &mut String, topics: &[Topic]) -> Result<(), AllocError>
    ensures { OnOk result (string_bytes text.new
        ≡ string_bytes text.old ++ flat_map name_line (map entry_of topics.now)) }
{
    for topic in topics {
        text.push_str(topic.name)?;
        text.push_str("\n")?;
    }
    Ok(())
}
