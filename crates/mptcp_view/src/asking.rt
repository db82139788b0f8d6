//! What the words of a command line ask for: a view, and the inputs of a replay.

ghost use Rattle.std.specs.Prelude.{◌≡◌, map, option_map, IfSome, string_bytes};
ghost use Rattle.run_words.specs.Lines.{as_line, is_given, replay};
ghost use Rattle.mptcp_view.specs.Asking.{are_given, are_names, are_read_apart, as_asked, asked_flagged, asked_in, asked_of, asked_plainly, asked_with, is_apart, side_named, view_at, view_named, view_with};

use run_words::{CommandLine, Mode};
use sides::Side;

/// What is shown of a run.
#[derive(Clone, Copy)]
pub enum View {
    /// A capture in the pcapng format: of each segment as it is handed to its link, or of what passes the interfaces of a side.
    Capture(Option<Side>),
    /// Lines of a CSV file: what was sent in each 100 ticks, by path and direction.
    Rates,
    /// A table by path and direction.
    Summary,
    /// A drawing in SVG.
    Picture,
    /// A line for each segment.
    Text(DataNumbers),
    /// All of it as one JSON object.
    Json,
    /// An HTML file that shows that object in a browser.
    Page,
}

/// How data sequence numbers and Data ACKs are told.
#[derive(Clone, Copy)]
pub enum DataNumbers {
    /// Relative to the initial ones.
    Relative,
    /// As they stand.
    Absolute,
}

/// The view of this name, as it is without an option.
fn view_named(word: &str) -> Option<View>
    ensures { result ≡ view_named word.now }
{
    match word {
        "capture" => Some(View::Capture(None)),
        "rates" => Some(View::Rates),
        "summary" => Some(View::Summary),
        "picture" => Some(View::Picture),
        "text" => Some(View::Text(DataNumbers::Relative)),
        "json" => Some(View::Json),
        "page" => Some(View::Page),
        _ => None,
    }
}

fn side_named(word: &str) -> Option<Side>
    ensures { result ≡ side_named word.now }
{
    match word {
        "a" => Some(Side::A),
        "b" => Some(Side::B),
        _ => None,
    }
}

/// The view of this name with this option: `capture --at a` or `capture --at b`.
fn view_at(word: &str, option: &str, value: &str) -> Option<View>
    ensures { result ≡ view_at word.now option.now value.now }
{
    if word != "capture" || option != "--at" {
        return None;
    }
    match side_named(value) {
        None => None,
        Some(side) => Some(View::Capture(Some(side))),
    }
}

fn is_given(word: &str) -> bool
    ensures { result ≡ is_given word.now }
{
    !word.is_empty()
}

/// Whether no name is empty.
fn are_given(script: &str, file_a: &str, file_b: &str, log: &str, out: &str) -> bool
    ensures { result ≡ are_given script.now file_a.now file_b.now log.now out.now }
{
    is_given(script) && is_given(file_a) && is_given(file_b) && is_given(log) && is_given(out)
}

/// Whether OUT has the name of none of the inputs.
fn is_apart(out: &str, script: &str, file_a: &str, file_b: &str, log: &str) -> bool
    ensures { result ≡ is_apart out.now script.now file_a.now file_b.now log.now }
{
    out != script && out != file_a && out != file_b && out != log
}

/// Whether neither file has the name of the script or of the log.
fn are_read_apart(script: &str, file_a: &str, file_b: &str, log: &str) -> bool
    ensures { result ≡ are_read_apart script.now file_a.now file_b.now log.now }
{
    file_a != script && file_a != log && file_b != script && file_b != log
}

/// Whether these can be the names of the inputs and of OUT, of a run of messages too where that is asked.
fn are_names(messages: bool, script: &str, file_a: &str, file_b: &str, log: &str, out: &str) -> bool
    ensures { result ≡ are_names messages script.now file_a.now file_b.now log.now out.now }
{
    are_given(script, file_a, file_b, log, out)
        && is_apart(out, script, file_a, file_b, log)
        && (!messages || are_read_apart(script, file_a, file_b, log))
}

/// What the words ask for: a view, and the inputs of a replay.
#[derive(Clone, Copy)]
pub struct Asked<'a> {
    pub view: View,
    pub line: CommandLine<'a>,
    pub log: &'a str,
}

/// The view of this name with this option: `text --absolute`.
fn view_with(word: &str, option: &str) -> Option<View>
    ensures { result ≡ view_with word.now option.now }
{
    if word == "text" && option == "--absolute" {
        Some(View::Text(DataNumbers::Absolute))
    } else {
        None
    }
}

/// What the words ask for: the view of what the names are. None of them is empty, and OUT is none of the inputs. Of a run of
/// messages neither file is the script or the log.
fn asked_of<'a>(
    messages: bool,
    view: Option<View>,
    script: &'a str,
    file_a: &'a str,
    file_b: &'a str,
    log: &'a str,
    out: &'a str,
) -> Option<Asked<'a>>
    ensures asked { option_map as_asked result ≡
        asked_of messages view script.now file_a.now file_b.now log.now out.now }
    ensures log { IfSome result (λ asked. (as_line asked.line).work ≡ replay asked.log.now) }
{
    if !are_names(messages, script, file_a, file_b, log, out) {
        return None;
    }
    match view {
        None => None,
        Some(view) => Some(Asked {
            view,
            line: CommandLine {
                mode: Mode::Replay { order: log },
                script,
                file_a,
                file_b,
                read_by_b: out,
                read_by_a: out,
            },
            log,
        }),
    }
}

/// A view's name and five names.
fn asked_plainly(messages: bool, words: &[String]) -> Option<Asked<'_>>
    ensures asked { option_map as_asked result ≡
        asked_plainly messages (map string_bytes words.now) }
    ensures log { IfSome result (λ asked. (as_line asked.line).work ≡ replay asked.log.now) }
{
    let [word, script, file_a, file_b, log, out] = words else {
        return None;
    };
    asked_of(
        messages,
        view_named(word.as_str()),
        script.as_str(),
        file_a.as_str(),
        file_b.as_str(),
        log.as_str(),
        out.as_str(),
    )
}

/// A view's name, an option of it in one word, and five names.
fn asked_flagged(messages: bool, words: &[String]) -> Option<Asked<'_>>
    ensures asked { option_map as_asked result ≡
        asked_flagged messages (map string_bytes words.now) }
    ensures log { IfSome result (λ asked. (as_line asked.line).work ≡ replay asked.log.now) }
{
    let [word, option, script, file_a, file_b, log, out] = words else {
        return None;
    };
    asked_of(
        messages,
        view_with(word.as_str(), option.as_str()),
        script.as_str(),
        file_a.as_str(),
        file_b.as_str(),
        log.as_str(),
        out.as_str(),
    )
}

/// A view's name, an option of it in two words, and five names.
fn asked_with(messages: bool, words: &[String]) -> Option<Asked<'_>>
    ensures asked { option_map as_asked result ≡ asked_with messages (map string_bytes words.now) }
    ensures log { IfSome result (λ asked. (as_line asked.line).work ≡ replay asked.log.now) }
{
    let [word, option, value, script, file_a, file_b, log, out] = words else {
        return None;
    };
    asked_of(
        messages,
        view_at(word.as_str(), option.as_str(), value.as_str()),
        script.as_str(),
        file_a.as_str(),
        file_b.as_str(),
        log.as_str(),
        out.as_str(),
    )
}

/// A view's name, an option of it in one or two words where there is one, and five names, as `asked_of` takes them.
pub fn asked_by(messages: bool, words: &[String]) -> Option<Asked<'_>>
    ensures asked { option_map as_asked result ≡ asked_in messages (map string_bytes words.now) }
    ensures log { IfSome result (λ asked. (as_line asked.line).work ≡ replay asked.log.now) }
{
    match words.len() {
        7 => asked_flagged(messages, words),
        8 => asked_with(messages, words),
        _ => asked_plainly(messages, words),
    }
}
