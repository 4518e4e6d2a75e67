ghost use Rattle.std.specs.Prelude.{◌≡◌, Ok, string_bytes};
ghost use Rattle.ga_explain.specs.Output.{explain_output};
ghost use Rattle.ga_input.specs.Fault.{Answers};

use ga_explain::{Topic, explain};
use ga_input::ServeError;
use std::alloc::Global;

/// The text of a topic, or all names.
pub fn output(alloc: Global, topic: Option<Topic>) -> Result<String, ServeError>
    ensures { Answers string_bytes (λ answer. answer ≡ Ok (explain_output topic)) result }
{
    Ok(explain(alloc, topic)?)
}
