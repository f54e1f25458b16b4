//! The words of a line, and the numbers among them.
ghost use Rattle.std.specs.Prelude.{◌≡◌, ◌+◌, ◌-◌, ◌*◌, ◌^◌, ◌<◌, ◌≤◌, ◌&&◌, [], ◌∷◌, length, IfSome, if◌then◌else◌, Some, None, MatchOption, nat_lt};
ghost use Rattle.script.specs.Words.{alike, feedless, number, passed_over, words};
ghost use Rattle.std.specs.Char.{is_ascii_digit};
ghost use Rattle.std.specs.List.{prefix_len};
ghost use Rattle.std.specs.Str.{bytes_eq};

// A line without the line feed at its end.
pub fn without_feed(line: &[u8]) -> &[u8]
    ensures { result.now ≡ feedless line.now }
{
    line.strip_suffix(b"\n").unwrap_or(line)
}

// Whether a line is empty or begins with #.
pub fn is_passed_over(line: &[u8]) -> bool
    ensures { result ≡ passed_over line.now }
{
    matches!(line, [] | [b'#', ..])
}

// How many bytes at the front of a line are blanks, or are none.
fn count_run(blank: bool, line: &[u8]) -> usize
    ensures value { result ≡ prefix_len (alike blank) line.now }
    ensures within { result ≤ length line.now }
{
    line.iter().take_while(|b| (**b == b' ') == blank).count()
}

// The first word of a line, and what follows it.
pub(crate) fn next_word(line: &[u8]) -> Option<(&[u8], &[u8])>
    ensures cases { MatchOption result (words line.now ≡ []) (λ p. words line.now ≡ p.0.now ∷ words p.1.now) }
    ensures shorter { IfSome result (λ p. length p.1.now < length line.now) }
{
    let line = &line[count_run(true, line)..];
    if line.is_empty() {
        return None;
    }
    Some(line.split_at(count_run(false, line)))
}

// Whether a word is this one.
pub(crate) fn is_word(word: &[u8], name: &str) -> bool
    ensures { result ≡ bytes_eq word.now name.now }
{
    word == name.as_bytes()
}

// The number with the figures of `n` and then the one that `b` shows. By u64, since two checked steps cost two fifths
// more here.
fn append(n: u32, b: u8) -> Option<u32>
    ensures { result ≡ (if is_ascii_digit b && nat_lt (n * 10 + (b - 48)) (2 ^ 32) then Some (n * 10 + (b - 48)) else None) }
{
    let figure = char::from(b).to_digit(10)?;
    u32::try_from(u64::from(n) * 10 + u64::from(figure)).ok()
}

// The number that a word is: decimal figures, up to 4,294,967,295.
pub(crate) fn read_number(word: &[u8]) -> Option<u32>
    ensures { result ≡ number word.now }
{
    if word.is_empty() {
        return None;
    }
    word.iter().try_fold(0, |n, b| append(n, *b))
}
