//! The words of the command line that name a list.

ghost use Rattle.std.specs.Prelude.{◌≡◌, ◌<◌, ◌≤◌, IfSome, map, option_map, string_bytes};
ghost use Rattle.connection_table.specs.ListWords.{as_words, named, rounds_in, words_in};

use run_words::read_number;

/// The most rounds, and how many are made where the words say nothing of them.
const MOST_ROUNDS: u32 = 1_024;

/// What the words ask for.
#[derive(Clone, Copy)]
pub(crate) struct ListWords<'a> {
    /// The name of the list; not empty.
    pub list: &'a str,
    /// The most rounds that are made of each connection: 1 to 1,024.
    pub rounds: u32,
}

/// The most rounds, by the two words behind the name.
fn rounds_of(option: &str, number: &str) -> Option<u32>
    ensures exact { result ≡ rounds_in option.now number.now }
    ensures within { IfSome result (λ rounds. (1 ≤ rounds) × (rounds ≤ 1024)) }
{
    if option != "--rounds" {
        return None;
    }
    read_number(number, 1, MOST_ROUNDS)
}

/// A name that isn't empty, with so many rounds.
fn named<'a>(list: &'a str, rounds: u32) -> Option<ListWords<'a>>
    requires { (1 ≤ rounds) × (rounds ≤ 1024) }
    ensures exact { option_map as_words result ≡ named list.entry.now rounds }
    ensures within { IfSome result (λ words. (1 ≤ words.rounds) × (words.rounds ≤ 1024)) }
{
    if list.is_empty() {
        None
    } else {
        Some(ListWords { list, rounds })
    }
}

/// What the words ask for, those behind the word `many`: a list, and the most rounds. None where they break the form.
pub(crate) fn read_list_words(words: &[String]) -> Option<ListWords<'_>>
    ensures exact { option_map as_words result ≡ words_in (map string_bytes words.entry.now) }
    ensures within { IfSome result (λ words. (1 ≤ words.rounds) × (words.rounds ≤ 1024)) }
{
    match words {
        [list] => named(list.as_str(), MOST_ROUNDS),
        [list, option, number] => {
            named(list.as_str(), rounds_of(option.as_str(), number.as_str())?)
        }
        _ => None,
    }
}
