ghost use Rattle.std.specs.Prelude.{◌≡◌, ℕ, IfOk, List, Ok, length, string_bytes, unwrap_or};
ghost use Rattle.ga_programs.specs.Dis.{AssemblesTo, dis_output};
ghost use Rattle.ga_input.specs.Fault.{Gives};
ghost use Rattle.ga_input.specs.Text.{words_in};

use ga_disasm::{items, print};
use ga_input::{ServeError, WordsFault, words_of};
use std::alloc::Global;

/// The words of the input as source text of node 000. The first ones, or all, are code.
pub fn output(alloc: Global, code: Option<u32>, input: &[u8]) -> Result<String, ServeError>
    ensures output { Gives string_bytes result (dis_output code input.now) }
    // `asm` makes the words of the input from this text, with this length of code, and nothing else
    ensures again { (words : List ℕ) → words_in input.now ≡ Ok words
        → IfOk result (λ text. AssemblesTo (string_bytes text) words
        (unwrap_or code (length words))) }
{
    let words = words_of(alloc, input)?;
    let code_len = match code {
        Some(code) => code as usize,
        None => words.len(),
    };
    if code_len > words.len() {
        return Err(ServeError::Words(WordsFault::BadCode));
    }
    let items = items(alloc, &words, code_len)?;
    let mut text = String::from_str(alloc, "node 000\n")?;
    text.push_str(&print(alloc, &items)?)?;
    Ok(text)
}
