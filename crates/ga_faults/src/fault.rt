use ga_asm::AsmError;
use ga_expand::ExpandError;
use ga_source::SourceError;

/// A fault of a source text, at the place where its token was written.
#[derive(Clone, Copy, Debug, PartialEq, Eq)]
pub enum Fault {
    /// The text has no expansion.
    Expand(ExpandError),
    /// Its expansion is no program.
    Source(SourceError),
    /// The program has no images.
    Asm(AsmError),
}
