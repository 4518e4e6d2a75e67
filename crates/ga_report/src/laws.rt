//! Laws of the definitions. They do nothing when run.
ghost use Rattle.ga_report.specs.Laws.{EscapedTextsArePlain};

/// A text of the caller can't begin or end an element of the page, nor an attribute.
pub fn escaped_texts()
    ensures { EscapedTextsArePlain }
{}
