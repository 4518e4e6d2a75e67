ghost use Rattle.std.specs.Prelude.{◌≡◌, ℕ, not};
ghost use Rattle.std.specs.List.{position};
ghost use Rattle.std.specs.Iterator.{YieldsFirstRef, item_count};
ghost use Rattle.ga_word.specs.Text.{is_blank, tokens};

/// The tokens of a text, the runs of bytes between spaces, tabs, CR and LF, from the front.
#[derive(Drop)]
pub struct Tokens<'a> {
    text: &'a [u8],
}

impl<'a> Tokens<'a> {
    pub fn new(text: &'a [u8]) -> Self
        ensures { tokens result.text.now ≡ tokens text.now }
    {
        Tokens { text }
    }
}

impl<'a> Iterator for Tokens<'a> {
    type Item = &'a [u8];

    ghost next_gives = { YieldsFirstRef (λ left. tokens left.text.now) };

    ghost remaining = { item_count (λ left. tokens left.text.now) };

    fn next(&mut self) -> Option<&'a [u8]> {
        let start = first_non_blank(self.text)?;
        let (_, text) = self.text.split_at(start);
        let (token, rest) = text.split_at(first_blank(text).unwrap_or(text.len()));
        self.text = rest;
        Some(token)
    }
}

/// The index of a text's first byte that is not blank.
pub fn first_non_blank(text: &[u8]) -> Option<usize>
    ensures { result ≡ position (λ c. not (is_blank c)) text.now }
{
    text.iter().position(|byte| !is_blank(*byte))
}

/// The index of a text's first blank: space, tab, LF or CR.
pub fn first_blank(text: &[u8]) -> Option<usize>
    ensures { result ≡ position is_blank text.now }
{
    text.iter().position(|byte| is_blank(*byte))
}

fn is_blank(byte: u8) -> bool
    ensures { result ≡ is_blank byte }
{
    byte <= b' ' && matches!(byte, b' ' | b'\t' | b'\n' | b'\r')
}
