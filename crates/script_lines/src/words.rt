ghost use Rattle.std.specs.Prelude.{◌≡◌, ◌≤◌, ◌∷◌, [], false, length, MatchOption};
ghost use Rattle.std.specs.List.{prefix_len, position_or_len};
ghost use Rattle.script_lines.specs.Words.{is_blank, words_of, is_one_word, is_at_most_one};

/// The first word of a line and what follows it, where there is a word.
pub fn first_word(line: &[u8]) -> Option<(&[u8], &[u8])>
    ensures { MatchOption result (words_of line.now ≡ [])
        (λ pair. words_of line.now ≡ pair.0.now ∷ words_of pair.1.now) }
{
    let text = line.split_at(count_blanks(line)).1;
    if text.is_empty() {
        return None;
    }
    Some(text.split_at(length_of_word(text)))
}

/// The word of a line that has just one.
pub fn only_word(line: &[u8]) -> Option<&[u8]>
    ensures { MatchOption result (is_one_word (words_of line.now) ≡ false)
        (λ word. words_of line.now ≡ word.now ∷ []) }
{
    optional_word(line)?
}

/// The word of a line that has at most one, where it has one.
pub fn optional_word(line: &[u8]) -> Option<Option<&[u8]>>
    ensures { MatchOption result (is_at_most_one (words_of line.now) ≡ false)
        (λ perhaps. MatchOption perhaps (words_of line.now ≡ [])
        (λ word. words_of line.now ≡ word.now ∷ [])) }
{
    let Some((word, rest)) = first_word(line) else {
        return Some(None);
    };
    if first_word(rest).is_some() {
        return None;
    }
    Some(Some(word))
}

// The number of blanks with which a line begins.
fn count_blanks(line: &[u8]) -> usize
    ensures value { result ≡ prefix_len is_blank line.now }
    ensures within { result ≤ length line.now }
{
    line.iter().take_while(|byte| is_blank(**byte)).count()
}

// The number of bytes before the first blank.
fn length_of_word(line: &[u8]) -> usize
    ensures value { result ≡ position_or_len is_blank line.now }
    ensures within { result ≤ length line.now }
{
    line.iter().take_while(|byte| !is_blank(**byte)).count()
}

// A space or a tab.
fn is_blank(byte: u8) -> bool
    ensures { result ≡ is_blank byte }
{
    byte == b' ' || byte == b'\t'
}
