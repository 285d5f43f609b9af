ghost use Rattle.std.specs.Prelude.{◌≡◌, map, string_bytes, codes, Some, None, if◌then◌else◌};
ghost use Rattle.std.specs.Option.{option_and_then, option_copied};
ghost use Rattle.std.specs.Str.{bytes_eq};
ghost use Rattle.hph_drive.specs.Words.{main_of, only, positional, is_option};

/// What makes all words behind it positional.
const MARK: &str = "--";

/// MAIN, where the words are `build` and one positional word.
#[tactic(auto, using(crate::proofs::PositionalWords::main_of_no_words, crate::proofs::PositionalWords::main_of_words))]
pub fn main_path(words: &[String]) -> Option<&str>
    ensures { option_copied result ≡ main_of (map string_bytes words.now) }
{
    let [command, words @ ..] = words else {
        return None;
    };
    if command.as_str() != "build" {
        return None;
    }
    only_positional(words)
}

/// The positional word, where there is just one, and no option.
#[tactic(auto, using(crate::proofs::PositionalWords::only_of_one, crate::proofs::PositionalWords::only_of_two, crate::proofs::PositionalWords::only_of_others))]
fn only_positional(words: &[String]) -> Option<&str>
    ensures { option_copied result ≡ option_and_then only (positional (map string_bytes words.now)) }
{
    match words {
        [word] => unless_option(word),
        [first, second] => unless_mark(first, second),
        _ => None,
    }
}

/// The one of two words that is positional, where the other is the mark.
fn unless_mark<'a>(first: &'a str, second: &'a str) -> Option<&'a str>
    ensures { option_copied result ≡ (if bytes_eq first.now (codes "--") then Some second.now
        else (if bytes_eq second.now (codes "--") then (if is_option first.now then None else Some first.now) else None)) }
{
    if first == MARK {
        Some(second)
    } else if second == MARK {
        unless_option(first)
    } else {
        None
    }
}

fn unless_option(word: &str) -> Option<&str>
    ensures { option_copied result ≡ (if is_option word.now then None else Some word.now) }
{
    if is_option(word) { None } else { Some(word) }
}

/// Whether a word asks for an option.
fn is_option(word: &str) -> bool
    ensures { result ≡ is_option word.now }
{
    word.len() > 1 && word.as_bytes()[0] == b'-'
}
