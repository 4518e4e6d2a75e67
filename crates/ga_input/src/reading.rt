ghost use Rattle.std.specs.Prelude.{◌≡◌, ◌+◌, ◌≤◌, ◌⊎◌, ℕ, List, length, vec_len, IfErr, IfOk, OnOk, false, true};
ghost use Rattle.std.specs.Io.KnownBytes.{Consumes, IsAtEnd};
ghost use Rattle.ga_input.specs.Reading as limits;
ghost use Rattle.ga_input.specs.Reading.{ReadFails, calls_of, has_failed};

use crate::fault::{InputFault, ServeError};
use crate::reads::{Reads, tried_again};
use std::alloc::Global;
use std::io::Read;

/// The most bytes that an input may have.
pub const INPUT_LIMIT: usize = 1_048_576;

/// The most calls of `read` that one input may take.
const READS_LIMIT: u32 = 2_097_152;

/// Reads the whole input, or one byte more than the limit if it is too long, with at most 2,097,152
/// calls of `read`. An interrupted call is made again.
///
/// Fails with `Input(TooLong)` for an input of more than 1,048,576 bytes, with `Read` if a call
/// failed or the limit of calls was reached, and with `Memory` only when out of memory. (The limits
/// are this project's own: profile.)
pub fn read_input<R: Read>(
    alloc: Global,
    reader: &mut R,
    reads: &mut Reads,
) -> Result<Vec<u8>, ServeError>
    ensures input { IfOk result (λ input.
        Consumes (R.remaining reader.old) (R.remaining reader.new) input.items) }
    ensures end { OnOk result (IsAtEnd (R.remaining reader.new)) }
    ensures limit { IfOk result (λ input. vec_len input ≤ limits.INPUT_LIMIT) }
    ensures fault { IfErr result (ReadFails (R.remaining reader.old)) }
    ensures no_more { (taken : List ℕ) × Consumes (R.remaining reader.old) (R.remaining reader.new)
        taken × (length taken ≤ limits.INPUT_LIMIT + 1) }
    // if no call was made before, and so none failed
    ensures calls { calls_of reads.old ≡ 0 → calls_of reads.new ≤ 2097152 }
    ensures failed { calls_of reads.old ≡ 0 → has_failed reads.old ≡ false
        → IfErr result (λ fault. fault ≡ ServeError.Read
        → (has_failed reads.new ≡ true) ⊎ (calls_of reads.new ≡ 2097152)) }
{
    // The system provides a page of this memory only when it is touched.
    let mut input = Vec::with_capacity(alloc, INPUT_LIMIT + 1)?;
    let mut buffer = [0; 8192];
    for _ in 0..READS_LIMIT {
        let most = buffer.len().min(INPUT_LIMIT + 1 - input.len());
        match reads.read(reader, &mut buffer[..most]) {
            Ok(0) => return Ok(input),
            Ok(count) => input.extend_from_slice(&buffer[..count])?,
            Err(error) => {
                tried_again(&error)?;
                continue;
            }
        }
        if input.len() > INPUT_LIMIT {
            return Err(ServeError::Input(InputFault::TooLong));
        }
    }
    Err(ServeError::Read)
}
