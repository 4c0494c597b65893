// The words of a line.
ghost use Rattle.std.specs.Prelude.{◌≡◌, ◌≤◌, length};
ghost use Rattle.script.specs.Words.{is_blank, ends_word, blank_count, word_length, first_word, after_word, word_at};

// The same test as for programs in hex: a crate for one line of code would be no plainer.
fn is_blank(b: u8) -> bool
    ensures { result ≡ is_blank b }
{
    b == b' ' || b == b'\t' || b == b'\r'
}

fn ends_word(b: u8) -> bool
    ensures { result ≡ ends_word b }
{
    is_blank(b) || b == b'#'
}

// How many blanks stand at the front.
fn blank_count(text: &[u8]) -> usize
    ensures within { result ≤ length text.now }
    ensures value { result ≡ blank_count text.now }
{
    text.iter()
        .position(|b| !is_blank(*b))
        .unwrap_or(text.len())
}

// How many characters at the front end no word.
fn word_length(text: &[u8]) -> usize
    ensures within { result ≤ length text.now }
    ensures value { result ≡ word_length text.now }
{
    text.iter()
        .position(|b| ends_word(*b))
        .unwrap_or(text.len())
}

// The first word and what follows it: no word is an empty one, so no Option is needed.
fn next_word(text: &[u8]) -> (&[u8], &[u8])
    ensures first { result.0.now ≡ first_word text.now }
    ensures rest { result.1.now ≡ after_word text.now }
{
    let (_, text) = text.split_at(blank_count(text));
    text.split_at(word_length(text))
}

// The word that so many stand before, empty if there is none.
pub(crate) fn word_at(text: &[u8], n: usize) -> &[u8]
    ensures { result.now ≡ word_at n text.now }
{
    let (first, rest) = next_word(text);
    if n == 0 { first } else { word_at(rest, n - 1) }
}
