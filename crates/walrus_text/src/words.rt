//! Lines of bytes, and a line as words, which spaces divide. No other byte divides words.
ghost use Rattle.std.specs.Prelude.{◌≡◌, ◌≢◌, ◌==◌, ◌++◌, ◌∷◌, [], ◌<◌, ◌≤◌, length, not, false, IsTrue, IfSome, IfNone};
ghost use Rattle.std.specs.List.{position, position_or_len};
ghost use Rattle.walrus_text.specs.Words.{has_items, words_of};
ghost use Rattle.walrus_text.specs.Steps.Bytes.{IsOneLine};

/// The bytes before the first line feed, and those behind it. `None` says that there is none.
pub fn next_line(bytes: &[u8]) -> Option<(&[u8], &[u8])>
    ensures found { IfSome result (λ found. bytes.now ≡ found.0.now ++ 10 ∷ found.1.now) }
    ensures one_line { IfSome result (λ found. IsOneLine found.0.now) }
    ensures shorter { IfSome result (λ found. length found.1.now < length bytes.now) }
    ensures none { IfNone result (IsOneLine bytes.now) }
{
    let (line, from_feed) = bytes.split_at(len_before(bytes, b'\n'));
    let (_, after) = from_feed.split_first()?;
    Some((line, after))
}

/// The first word of a line, and the rest of the line. `None` says that the line has no word.
#[tactic(auto, using(crate::proofs::Lexing::FirstWord::words_from_word, crate::proofs::Lexing::FirstWord::no_words))]
pub fn next_word(line: &[u8]) -> Option<(&[u8], &[u8])>
    ensures found { IfSome result (λ found. words_of line.now ≡ found.0.now ∷
        words_of found.1.now) }
    ensures shorter { IfSome result (λ found. length found.1.now < length line.now) }
    ensures none { IfNone result (words_of line.now ≡ []) }
{
    let from_word = &line[spaces_len(line)..];
    let (word, rest) = from_word.split_at(len_before(from_word, b' '));
    if word.is_empty() {
        return None;
    }
    Some((word, rest))
}

/// Whether the word is this one.
pub fn is_word(word: &[u8], wanted: &[u8]) -> bool
    ensures yes { IsTrue result → word.now ≡ wanted.now }
    ensures no { result ≡ false → word.now ≢ wanted.now }
{
    word == wanted
}

/// Whether the line has no word.
pub fn is_blank(line: &[u8]) -> bool
    ensures { result ≡ not (has_items (words_of line.now)) }
{
    next_word(line).is_none()
}

/// The number of spaces that the line begins with.
#[tactic(auto, using(crate::proofs::Lexing::FirstWord::place_or_end))]
fn spaces_len(line: &[u8]) -> usize
    ensures within { result ≤ length line.now }
    ensures value { result ≡ position_or_len (λ b. not (b == 32)) line.now }
{
    word_start(line).unwrap_or(line.len())
}

fn word_start(line: &[u8]) -> Option<usize>
    ensures { result ≡ position (λ b. not (b == 32)) line.now }
{
    line.iter().position(|byte| *byte != b' ')
}

/// The number of bytes before the first that is `wanted`, or of all bytes where none is.
#[tactic(auto, using(crate::proofs::Lexing::FirstWord::place_or_end))]
fn len_before(bytes: &[u8], wanted: u8) -> usize
    ensures within { result ≤ length bytes.now }
    ensures value { result ≡ position_or_len (λ b. b == wanted) bytes.now }
{
    first_index(bytes, wanted).unwrap_or(bytes.len())
}

/// The index of the first byte that is `wanted`.
pub fn first_index(bytes: &[u8], wanted: u8) -> Option<usize>
    ensures { result ≡ position (λ b. b == wanted) bytes.now }
{
    bytes.iter().position(|byte| *byte == wanted)
}
