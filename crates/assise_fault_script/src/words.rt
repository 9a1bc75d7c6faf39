//! The lines of a script, and the words of a line.
ghost use Rattle.std.specs.Prelude.{◌≡◌, ◌<◌, ◌∷◌, ◌++◌, [], IfNone, IfSome, filter, length, map, take};
ghost use Rattle.std.specs.List.{position};
ghost use Rattle.assise_fault_script.specs.Words.{is_line_feed, is_word, lines_of, without_return, words_of};

use arrayvec::ArrayVec;
use memchr::memchr;

/// One word more than a command has at most.
pub const MOST_WORDS: usize = 6;

/// The first words of a text, parted by spaces. Of more than six only six are kept: no command has more than five.
pub fn words(text: &str) -> ArrayVec<&str, MOST_WORDS>
    ensures { map (λ w. w.now) result.items ≡ take 6 (words_of text.now) }
{
    let mut words = ArrayVec::new();
    let mut rest = text;
    while let Some((piece, more)) = rest.split_once(' ') {
        keep(&mut words, piece);
        rest = more;
    }
    keep(&mut words, rest);
    words
}

/// Appends a piece if it is a word and there is room.
fn keep<'a>(words: &mut ArrayVec<&'a str, MOST_WORDS>, piece: &'a str)
    ensures { map (λ w. w.now) words.new.items ≡ take 6
        (map (λ w. w.now) words.old.items ++ filter is_word (piece.entry.now ∷ [])) }
{
    if words.is_full() {
        return;
    }
    if !piece.is_empty() {
        words.push(piece);
    }
}

/// The first line, without the line feed and one carriage return that end it, and what stands behind it. There
/// is none where no line feed is left.
pub fn split_line(bytes: &[u8]) -> Option<(&[u8], &[u8])>
    ensures last { IfNone result (lines_of bytes.now ≡ bytes.now ∷ []) }
    ensures first { IfSome result (λ parts. lines_of bytes.now ≡
        parts.0.now ∷ lines_of parts.1.now) }
    ensures shorter { IfSome result (λ parts. length parts.1.now < length bytes.now) }
{
    match first_line_feed(bytes) {
        Some(at) => Some((without_return(&bytes[..at]), &bytes[at + 1..])),
        None => None,
    }
}

fn first_line_feed(bytes: &[u8]) -> Option<usize>
    ensures { result ≡ position is_line_feed bytes.now }
{
    memchr(b'\n', bytes)
}

fn without_return(bytes: &[u8]) -> &[u8]
    ensures { result.now ≡ without_return bytes.now }
{
    match bytes {
        [prefix @ .., b'\r'] => prefix,
        _ => bytes,
    }
}
