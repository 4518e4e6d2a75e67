ghost use Rattle.std.specs.Prelude.{◌≡◌, ◌++◌, IfOk, IfSome, OnOk, map, option_map};
ghost use Rattle.ga_explain.specs.Output.{entry_in, meaning_of};
ghost use Rattle.ga_explain.specs.Table.{entries};
ghost use Rattle.ga_explain.specs.Topic.{entry_of};

use crate::{
    includes, input, language, larger, layout, needs, routes, sessions, source, terms, warnings,
};
use std::alloc::{AllocError, Global};

/// A row of the table: a name, its meaning in one line, and its text.
macro_rules! topic {
    ($name:literal, $meaning:literal, $text:expr $(,)?) => {
        Topic {
            name: $name,
            meaning: $meaning,
            text: $text,
        }
    };
}

pub(crate) use topic;

/// A name that the program writes, and what it means.
#[derive(Clone, Copy, Debug, PartialEq, Eq)]
pub struct Topic {
    pub name: &'static str,
    /// The line that is shown behind a fault of this name; empty if none is.
    pub meaning: &'static str,
    /// Lines of at most 80 characters.
    pub text: &'static str,
}

impl Topic {
    /// The topic with this name, or `None` if the table has none. Fails only when out of memory.
    pub fn named(alloc: Global, name: &str) -> Result<Option<Topic>, AllocError>
        ensures entry { IfOk result (λ topic. option_map entry_of topic
            ≡ entry_in entries name.now) }
        ensures name { IfOk result (λ topic. IfSome topic (λ found. found.name.now ≡ name.now)) }
    {
        let topics = topics(alloc)?;
        Ok(found(&topics, name))
    }
}

/// What a name means, in one line. The line of an unknown name is empty. Fails only when out of
/// memory.
#[tactic(auto, unfolding(crate::specs::Output::meaning_of))]
pub fn meaning(alloc: Global, name: &str) -> Result<&'static str, AllocError>
    ensures { IfOk result (λ line. line.now ≡ meaning_of name.now) }
{
    match Topic::named(alloc, name)? {
        Some(topic) => Ok(topic.meaning),
        None => Ok(""),
    }
}

/// All topics, in the order of the pages. Fails only when out of memory.
pub fn topics(alloc: Global) -> Result<Vec<Topic>, AllocError>
    ensures { IfOk result (λ topics. map entry_of topics.items ≡ entries) }
{
    let mut topics = Vec::new(alloc);
    append(&mut topics, &source::topics())?;
    append(&mut topics, &layout::topics())?;
    append(&mut topics, &larger::topics())?;
    append(&mut topics, &includes::topics())?;
    append(&mut topics, &warnings::topics())?;
    append(&mut topics, &routes::topics())?;
    append(&mut topics, &sessions::topics())?;
    append(&mut topics, &input::topics())?;
    append(&mut topics, &needs::topics())?;
    append(&mut topics, &terms::topics())?;
    append(&mut topics, &language::topics())?;
    Ok(topics)
}

/// Appends the topics of a group.
fn append(topics: &mut Vec<Topic>, group: &[Topic]) -> Result<(), AllocError>
    ensures { OnOk result (map entry_of topics.new.items
        ≡ map entry_of topics.old.items ++ map entry_of group.now) }
{
    topics.extend_from_slice(group)
}

/// The first of these topics with this name.
fn found(topics: &[Topic], name: &str) -> Option<Topic>
    ensures entry { option_map entry_of result ≡ entry_in (map entry_of topics.now) name.now }
    ensures name { IfSome result (λ topic. topic.name.now ≡ name.now) }
{
    for topic in topics {
        if topic.name == name {
            return Some(*topic);
        }
    }
    None
}
