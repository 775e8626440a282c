//! Options of all commands among the words of a command line, and which commands have objects.

ghost use Rattle.std.specs.Prelude.{◌≡◌, ◌↔◌, ◌<◌, false, IfNone, IfSome, IsTrue, MatchOption, length, string_bytes};
ghost use Rattle.std.specs.Option.{option_copied};
ghost use Rattle.jc_render.specs.Words.{HasObjects, IsAt, IsClear, IsMissing, Takes, command_in};

/// The option of all commands.
pub const EXPLAIN: &str = "--explain";

/// The option of the commands that have objects.
pub const JSON: &str = "--json";

/// What ends the options of a command line.
const END: &str = "--";

/// Takes an option off the words, if it is among them, and answers whether it was. The first word is the program's name,
/// and what follows `--` are no options.
pub fn take_option(words: &mut Vec<String>, option: &str) -> bool
    ensures { Takes string_bytes option.now words.old.items words.new.items result }
{
    match place_of_option(words.as_slice(), option) {
        Some(place) => {
            words.remove(place);
            true
        }
        None => false,
    }
}

/// Where the option stands first.
fn place_of_option(words: &[String], option: &str) -> Option<usize>
    ensures within { IfSome result (λ at. at < length words.now) }
    ensures found { IfSome result (λ at. IsAt string_bytes option.now words.now at × IsClear string_bytes option.now words.now at) }
    ensures missing { IfNone result (IsMissing string_bytes option.now words.now) }
{
    for at in 1..words.len() {
        let word = words[at].as_str();
        if word == option {
            return Some(at);
        }
        if word == END {
            return None;
        }
    }
    None
}

/// Whether the command has objects that these words name, the program's first.
pub fn has_objects(words: &[String]) -> bool
    ensures { MatchOption (command_in string_bytes words.now) (result ≡ false) (λ word. IsTrue result ↔ HasObjects (string_bytes word)) }
{
    match command_of(words) {
        Some(command) => is_told_so(command.as_str()),
        None => false,
    }
}

/// The word that names the command: the first one, or the one behind the option.
fn command_of(words: &[String]) -> Option<&String>
    ensures { option_copied result ≡ command_in string_bytes words.now }
{
    match words.get(1) {
        Some(word) if word.as_str() == JSON => words.get(2),
        word => word,
    }
}

fn is_told_so(command: &str) -> bool
    ensures { IsTrue result ↔ HasObjects command.now }
{
    matches!(command, "check" | "codes" | "inspect" | "show" | "verify")
}
