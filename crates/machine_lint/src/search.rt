//! Where the words of keys stand in a text.

ghost use Rattle.std.specs.Prelude.{◌≡◌, ◌+◌, ◌≤◌, ◌<◌, ◌^◌, length, take, ◌==◌, ◌||◌, if◌then◌else◌, false, IfSome, true};
ghost use Rattle.machine_lint.specs.Words.{bare_at, bare_before, comment_after, first_key, first_word, is_blank, is_key_at, is_key_byte, is_mark, is_word_at, key_from, leads_on};

/// Whether a byte may stand in a key without quotes.
pub(crate) fn is_key_byte(byte: u8) -> bool
    ensures { result ≡ is_key_byte byte }
{
    byte.is_ascii_alphanumeric() || byte == b'_' || byte == b'-'
}

/// Whether such a byte stands at an offset.
pub(crate) fn bare_at(text: &[u8], at: usize) -> bool
    ensures { result ≡ bare_at text.now at }
{
    match text.get(at) {
        Some(byte) => is_key_byte(*byte),
        None => false,
    }
}

/// Whether such a byte stands right before an offset.
pub(crate) fn bare_before(text: &[u8], at: usize) -> bool
    ensures { result ≡ bare_before text.now at }
{
    if at == 0 {
        return false;
    }
    bare_at(text, at - 1)
}

/// Whether a word stands at an offset, and is no part of a longer one.
#[tactic(auto, unfolding(crate::specs::Words::is_word_at))]
fn is_word_at(text: &[u8], word: &str, at: usize) -> bool
    requires inside { at < length text.now }
    requires short { length text.now < 2 ^ 32 }
    ensures is { result ≡ is_word_at text.now word.now at }
    ensures inside { result ≡ true → at + length word.now ≤ length text.now }
{
    let rest = &text[at..];
    if !rest.starts_with(word.as_bytes()) {
        return false;
    }
    !bare_at(text, at + word.len()) & !bare_before(text, at)
}

/// Whether a byte is a blank.
pub(crate) fn is_blank(byte: u8) -> bool
    ensures { result ≡ is_blank byte }
{
    byte == b' ' || byte == b'\t'
}

/// Whether a byte stands after a key.
pub(crate) fn is_mark(byte: u8) -> bool
    ensures { result ≡ is_mark byte }
{
    byte == b'=' || byte == b'.' || byte == b']'
}

/// Whether blanks and then `=`, `.` or `]` come first in a text.
fn leads_on(text: &[u8]) -> bool
    ensures { result ≡ leads_on text.now }
{
    for byte in text {
        if !is_blank(*byte) {
            return is_mark(*byte);
        }
    }
    false
}

/// Whether a byte is in a comment or ends one, by whether the byte before it is in one.
pub(crate) fn comments_on(begun: bool, byte: u8) -> bool
    ensures { result ≡ (if byte == 10 then false else begun || (byte == 35)) }
{
    if byte == b'\n' {
        return false;
    }
    begun || byte == b'#'
}

/// Whether a text ends in a comment.
fn ends_in_comment(text: &[u8]) -> bool
    ensures { result ≡ comment_after false text.now }
{
    let mut begun = false;
    for byte in text {
        begun = comments_on(begun, *byte);
    }
    begun
}

/// Whether a word stands at an offset as a key does, where a comment has begun before it or not.
#[tactic(auto, unfolding(crate::specs::Words::is_key_at))]
fn is_key_at(text: &[u8], word: &str, at: usize, begun: bool) -> bool
    requires inside { at < length text.now }
    requires short { length text.now < 2 ^ 32 }
    requires begun { begun ≡ comment_after false (take at text.now) }
    ensures is { result ≡ is_key_at text.now word.now at }
    ensures inside { result ≡ true → at + length word.now ≤ length text.now }
{
    !begun && is_word_at(text, word, at) && leads_on(&text[at + word.len()..])
}

/// The first place from an offset on at which a word stands as a key does.
fn first_key(text: &[u8], word: &str, from: usize) -> Option<usize>
    requires short { length text.now < 2 ^ 32 }
    ensures is { result ≡ first_key text.now word.now from }
    ensures inside { IfSome result (λ at. at + length word.now ≤ length text.now) }
{
    let mut begun = ends_in_comment(&text[..from.min(text.len())]);
    for at in from..text.len() {
        if is_key_at(text, word, at, begun) {
            return Some(at);
        }
        begun = comments_on(begun, text[at]);
    }
    None
}

/// The first place from an offset on at which a word stands.
fn first_word(text: &[u8], word: &str, from: usize) -> Option<usize>
    requires short { length text.now < 2 ^ 32 }
    ensures is { result ≡ first_word text.now word.now from }
    ensures inside { IfSome result (λ at. at + length word.now ≤ length text.now) }
{
    for at in from..text.len() {
        if is_word_at(text, word, at) {
            return Some(at);
        }
    }
    None
}

/// The first place from an offset on at which a word stands as a key does, or at all. It goes over the text for this word alone.
#[tactic(auto, unfolding(crate::specs::Words::key_from))]
pub(crate) fn find_key(text: &[u8], word: &str, from: usize) -> Option<usize>
    requires short { length text.now < 2 ^ 32 }
    ensures is { result ≡ key_from text.now word.now from }
    ensures inside { IfSome result (λ at. at + length word.now ≤ length text.now) }
{
    match first_key(text, word, from) {
        Some(at) => Some(at),
        None => first_word(text, word, from),
    }
}
