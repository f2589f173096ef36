// How a text is split into lines, and a line into words; the weekdays, the bodies and the true places by name.
#![tactic(auto)]

ghost use Rattle.std.specs.Prelude.{◌≡◌};
ghost use Rattle.text.specs.Lines.{space};
ghost use Rattle.words.specs.Names.{weekday_names, body_names, true_names};
ghost use Rattle.words.specs.Words.{is_separator, in_run, run_length, up_to, after_first, trimmed, first_word, after_word, after_words, pieces, behind_mark, small_byte, small, same_bytes, unmarked, place_in, name_at};

pub const WEEKDAYS: [u8; 56] = *b"monday tuesday wednesday thursday friday saturday sunday";

pub const BODY_NAMES: [u8; 54] = *b"sun moon apogee node mars mercury jupiter venus saturn";

pub const TRUE_NAMES: [u8; 77] =
    *b"true_sun true_moon true_mars true_mercury true_jupiter true_venus true_saturn";

// Where the separator is a space, a tab, a carriage return and a comma separate too.
#[tactic(auto, unfolding(crate::specs::Words::is_separator))]
fn separates(separator: u8, b: u8) -> bool
    ensures { result ≡ is_separator separator b }
{
    b == separator || separator == b' ' && (b == b'\t' || b == b'\r' || b == b',')
}

fn belongs(separators: bool, separator: u8, b: u8) -> bool
    ensures { result ≡ in_run separators separator b }
{
    separates(separator, b) == separators
}

// How many bytes at the front are separators, or are none.
pub fn run_length(s: &[u8], separator: u8, separators: bool) -> usize
    ensures { result ≡ run_length separators separator s.now }
{
    s.iter()
        .position(|&b| !belongs(separators, separator, b))
        .unwrap_or(s.len())
}

// The bytes before the first separator.
pub fn up_to(s: &[u8], separator: u8) -> &[u8]
    ensures { result.now ≡ up_to separator s.now }
{
    let length = run_length(s, separator, false);
    &s[..length]
}

// The bytes after the first separator.
pub fn after(s: &[u8], separator: u8) -> &[u8]
    ensures { result.now ≡ after_first separator s.now }
{
    let end = run_length(s, separator, false);
    if end == s.len() {
        return &s[end..];
    }
    let next = end + 1;
    &s[next..]
}

// What follows a byte order mark in front; all of a text that has none.
pub fn unmarked(text: &[u8]) -> &[u8]
    ensures { result.now ≡ unmarked text.now }
{
    text.strip_prefix(&[239, 187, 191]).unwrap_or(text)
}

fn trim(s: &[u8]) -> &[u8]
    ensures { result.now ≡ trimmed s.now }
{
    let start = run_length(s, b' ', true);
    &s[start..]
}

// The first word, empty where there is none.
pub fn first_word(s: &[u8]) -> &[u8]
    ensures { result.now ≡ first_word s.now }
{
    up_to(trim(s), b' ')
}

// What follows the first word.
pub fn after_word(s: &[u8]) -> &[u8]
    ensures { result.now ≡ after_word s.now }
{
    after(trim(s), b' ')
}

// What follows the first words, so many of them.
pub fn after_words(s: &[u8], count: usize) -> &[u8]
    ensures { result.now ≡ after_words count s.now }
{
    let mut rest = s;
    for _ in 0..count {
        rest = after_word(rest);
    }
    rest
}

// Whether the byte behind this one is the last of a letter with a mark, but for ñ.
#[tactic(auto, unfolding(crate::specs::Words::behind_mark))]
fn behind_mark(before: u8) -> bool
    ensures { result ≡ behind_mark before }
{
    matches!(before, 184 | 185 | 196 | 197)
}

// A byte in small letters, by the byte before it.
#[tactic(auto, unfolding(crate::specs::Words::small_byte))]
fn small_byte(before: u8, b: u8) -> u8
    ensures { result ≡ small_byte before b }
{
    match b {
        b'A'..=b'Z' => b + 32,
        0..128 => b,
        128..160 if before == 195 => b + 32,
        _ if behind_mark(before) && b % 2 == 0 => b + 1,
        _ => b,
    }
}

// Whether a word is a name, which is in small letters, in any letter case.
fn is_name(name: &[u8], word: &[u8]) -> bool
    ensures { result ≡ same_bytes name.now (small word.now) }
{
    if name.len() != word.len() {
        return false;
    }
    let mut before: u8 = 0;
    for i in 0..name.len() {
        let b = word[i];
        if name[i] != small_byte(before, b) {
            return false;
        }
        before = b;
    }
    true
}

// The place of a word among names with a space between them, in any letter case; of a word that is none of them, how
// many names there are.
pub fn place_in(names: &[u8], word: &[u8]) -> usize
    ensures { result ≡ place_in (pieces space names.now) word.now }
{
    let mut place: usize = 0;
    let mut rest = names;
    loop {
        if is_name(up_to(rest, b' '), word) {
            return place;
        }
        place += 1;
        if run_length(rest, b' ', false) == rest.len() {
            return place;
        }
        let others = after(rest, b' ');
        rest = others;
    }
}

// The name at a place, empty where there is none.
pub fn name_at(names: &[u8], place: usize) -> &[u8]
    ensures { result.now ≡ name_at (pieces space names.now) place }
{
    let mut rest = names;
    for _ in 0..place {
        rest = after(rest, b' ');
    }
    up_to(rest, b' ')
}

// The place of a weekday's name, 0 for monday; 7 for a word that is none.
pub fn weekday_place(word: &[u8]) -> usize
    ensures { result ≡ place_in weekday_names word.now }
{
    place_in(&WEEKDAYS, word)
}

// The place of a body's name, 0 for sun; 9 for a word that is none.
pub fn body_place(word: &[u8]) -> usize
    ensures { result ≡ place_in body_names word.now }
{
    place_in(&BODY_NAMES, word)
}

// The place of a true place's name, 0 for true_sun; 7 for a word that is none.
pub fn true_place(word: &[u8]) -> usize
    ensures { result ≡ place_in true_names word.now }
{
    place_in(&TRUE_NAMES, word)
}
