ghost use Rattle.std.specs.Prelude.{◌≡◌, IfOk, string_bytes};

use crate::state::NodeState;
use ga_word::Hex3;
use std::alloc::{AllocError, Global};
use std::fmt::Write;

impl NodeState {
    ghost use Rattle.ga_node.specs.Line.{line_of};

    /// The node as one line of text, ended by LF: its name, its registers in hex digits, its place,
    /// how many steps it has made, and what it needs for the next one. Fails only when out of
    /// memory.
    #[tactic(auto, unfolding(crate::specs::Line::line_of))]
    pub fn line(&self, alloc: Global) -> Result<String, AllocError>
        ensures { IfOk result (λ text. string_bytes text ≡ line_of self.now) }
    {
        let p = Hex3::new(self.p);
        let b = Hex3::new(self.b);
        let carry = if self.carry { "1" } else { "0" };
        let mut line = String::new(alloc);
        write!(line, "node {} P {p} A {} B {b}", self.node, self.a)?;
        write!(line, " R {} S {} T {} C {carry}", self.r, self.s, self.t)?;
        write!(line, " io {} at {}", self.io, self.place)?;
        writeln!(line, " steps {} need {}", self.steps, self.need())?;
        Ok(line)
    }
}
