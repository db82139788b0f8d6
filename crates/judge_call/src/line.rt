//! The words of the command line.

ghost use Rattle.std.specs.Prelude.{◌≡◌, Some, false, map, option_map, string_bytes};
ghost use Rattle.judge_call.specs.Words.{all_asked, as_asked, as_line, asked_by, is_option, line_asked, line_of, nothing_asked, side_named, then_asked, with_prefix, with_side, with_word};

use rule_book::JudgeWords;
use sides::Side;

/// What the words ask for: the name of a capture, how it is judged, and how the names of the streams begin.
#[derive(Clone, Copy)]
pub struct CommandLine<'a> {
    pub capture: &'a str,
    pub judging: JudgeWords,
    pub streams: Option<&'a str>,
}

/// What the next word is: one by itself, a side, or how the names of the streams begin.
#[derive(Clone, Copy)]
pub enum Next {
    Alone,
    Side,
    Prefix,
}

/// What the words so far ask for.
#[derive(Clone, Copy)]
pub struct Asked<'a> {
    pub capture: Option<&'a str>,
    pub judging: JudgeWords,
    pub streams: Option<&'a str>,
    pub next: Next,
}

/// The command line that the words say: each option at most once, and one name.
pub(crate) fn read_line<'a>(words: &'a [String]) -> Option<CommandLine<'a>>
    ensures { option_map as_line result ≡ line_of (map string_bytes words.entry.now) }
{
    line_asked(&asked_of(words)?)
}

fn asked_of<'a>(words: &'a [String]) -> Option<Asked<'a>>
    ensures { option_map as_asked result ≡
        all_asked (Some nothing_asked) (map string_bytes words.entry.now) }
{
    let mut asked = Some(nothing_asked());
    for word in words {
        asked = then_asked(asked, word.as_str());
    }
    asked
}

fn nothing_asked<'a>() -> Asked<'a>
    ensures { as_asked result ≡ nothing_asked }
{
    let judging = JudgeWords {
        at: None,
        check_sums: true,
    };
    Asked {
        capture: None,
        judging,
        streams: None,
        next: Next::Alone,
    }
}

// What is asked for with a word more.
fn then_asked<'a>(asked: Option<Asked<'a>>, word: &'a str) -> Option<Asked<'a>>
    ensures { option_map as_asked result ≡ then_asked (option_map as_asked asked.entry) word.now }
{
    match asked {
        Some(asked) => asked_by(asked, word),
        None => None,
    }
}

fn asked_by<'a>(asked: Asked<'a>, word: &'a str) -> Option<Asked<'a>>
    ensures { option_map as_asked result ≡
        asked_by asked.entry.next (as_asked asked.entry) word.now }
{
    match asked.next {
        Next::Alone => with_word(asked, word),
        Next::Side => with_side(asked, side_named(word)),
        Next::Prefix => Some(with_prefix(asked, word)),
    }
}

fn with_word<'a>(asked: Asked<'a>, word: &'a str) -> Option<Asked<'a>>
    ensures { option_map as_asked result ≡ with_word (as_asked asked.entry) word.now }
{
    if word == "--at" && asked.judging.at.is_none() {
        return Some(with_next(asked, Next::Side));
    }
    if word == "--streams" && asked.streams.is_none() {
        return Some(with_next(asked, Next::Prefix));
    }
    if word == "--no-tcp-sum" && asked.judging.check_sums {
        return Some(without_sums(asked));
    }
    if asked.capture.is_none() && !is_option(word) {
        return Some(with_capture(asked, word));
    }
    None
}

fn with_next(asked: Asked<'_>, next: Next) -> Asked<'_>
    ensures { as_asked result ≡ record (as_asked asked.entry) { next = next } }
{
    Asked { next, ..asked }
}

fn without_sums(asked: Asked<'_>) -> Asked<'_>
    ensures { as_asked result ≡ record (as_asked asked.entry) { check_sums = false } }
{
    let judging = JudgeWords {
        at: asked.judging.at,
        check_sums: false,
    };
    Asked { judging, ..asked }
}

fn with_capture<'a>(asked: Asked<'a>, word: &'a str) -> Asked<'a>
    ensures { as_asked result ≡ record (as_asked asked.entry) { capture = Some word.now } }
{
    Asked {
        capture: Some(word),
        ..asked
    }
}

fn with_side(asked: Asked<'_>, side: Option<Side>) -> Option<Asked<'_>>
    ensures { option_map as_asked result ≡ with_side (as_asked asked.entry) side }
{
    let judging = JudgeWords {
        at: Some(side?),
        check_sums: asked.judging.check_sums,
    };
    Some(Asked {
        judging,
        next: Next::Alone,
        ..asked
    })
}

fn with_prefix<'a>(asked: Asked<'a>, word: &'a str) -> Asked<'a>
    ensures { as_asked result ≡ with_prefix (as_asked asked.entry) word.now }
{
    Asked {
        streams: Some(word),
        next: Next::Alone,
        ..asked
    }
}

// Whether a word begins with two hyphens.
fn is_option(word: &str) -> bool
    ensures { result ≡ is_option word.now }
{
    match word.as_bytes() {
        [first, second, ..] => *first == b'-' && *second == b'-',
        _ => false,
    }
}

fn side_named(word: &str) -> Option<Side>
    ensures { result ≡ side_named word.now }
{
    match word {
        "a" => Some(Side::A),
        "b" => Some(Side::B),
        _ => None,
    }
}

// The command line, where no word is missing.
fn line_asked<'a>(asked: &Asked<'a>) -> Option<CommandLine<'a>>
    ensures { option_map as_line result ≡ line_asked (as_asked asked.now) }
{
    match (asked.next, asked.capture) {
        (Next::Alone, Some(capture)) => Some(CommandLine {
            capture,
            judging: asked.judging,
            streams: asked.streams,
        }),
        _ => None,
    }
}
