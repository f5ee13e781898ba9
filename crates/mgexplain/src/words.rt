//! The words of the command line: the files that they name, and behind these what they ask for.
ghost use Rattle.std.specs.Prelude.{◌≡◌, ◌≤◌, length, map, string_bytes};
ghost use Rattle.mgexplain.specs.Files.{asks, file_count, go_with, request_behind, request_of, request_with};
ghost use Rattle.mgexplain.specs.Forms.{asked_behind, asked_by, asked_by_three, asked_by_two, call_number, form_of, in_form, of_call, of_form, strictly};

use crate::call_number::call_number;
use check_facts::form::Form;

/// What the words ask for.
#[derive(Clone, Copy)]
pub(crate) enum Asked {
    /// What is said of an input, in a form, and of a plan of the call with a number alone where there is one.
    Saying(Form, Option<u32>),
    /// What is said of a script and a certificate, in a form, with a status that counts warnings.
    Strictly(Form),
    /// How the program is called.
    Help,
    /// Which version it is.
    Version,
}

/// What the words ask for, and how many of those before it name files.
#[derive(Clone, Copy)]
pub(crate) struct Request {
    pub(crate) asked: Asked,
    /// None where the input is on standard input; else a script and a certificate, or these and a plan.
    pub(crate) files: usize,
}

/// The form that a word asks for.
fn form_of(word: &str) -> Option<Form>
    ensures { result ≡ form_of word.now }
{
    if word == "--json" {
        return Some(Form::Json);
    }
    None
}

/// What a word asks for.
fn asked_by(word: &str) -> Option<Asked>
    ensures { result ≡ asked_by word.now }
{
    if word == "--help" || word == "-h" {
        return Some(Asked::Help);
    }
    if word == "--version" {
        return Some(Asked::Version);
    }
    if word == "--strict" {
        return Some(Asked::Strictly(Form::Text));
    }
    match form_of(word) {
        Some(form) => Some(Asked::Saying(form, None)),
        None => None,
    }
}

/// What is said of one call.
fn of_call(form: Form, number: &str) -> Option<Asked>
    ensures { result ≡ of_call form (call_number number.now) }
{
    match call_number(number) {
        Some(number) => Some(Asked::Saying(form, Some(number))),
        None => None,
    }
}

/// What is said of one call in a form.
fn of_form(form: &str, number: &str) -> Option<Asked>
    ensures { result ≡ of_form (form_of form.now) (call_number number.now) }
{
    match form_of(form) {
        Some(form) => of_call(form, number),
        None => None,
    }
}

/// What is said in a form with a status that counts warnings.
fn strictly(form: Option<Form>) -> Option<Asked>
    ensures { result ≡ strictly form }
{
    match form {
        Some(form) => Some(Asked::Strictly(form)),
        None => None,
    }
}

/// What two words ask for.
fn asked_by_two(first: &str, second: &str) -> Option<Asked>
    ensures { result ≡ asked_by_two first.now second.now }
{
    if first == "--call" {
        return of_call(Form::Text, second);
    }
    if first == "--strict" {
        return strictly(form_of(second));
    }
    if second == "--strict" {
        return strictly(form_of(first));
    }
    None
}

/// What three words ask for.
fn asked_by_three(first: &str, second: &str, third: &str) -> Option<Asked>
    ensures { result ≡ asked_by_three first.now second.now third.now }
{
    if first == "--call" {
        return of_form(third, second);
    }
    if second == "--call" {
        return of_form(first, third);
    }
    None
}

/// What the words behind the program's name ask for. `None` where they ask for nothing that the program does.
fn read_behind(words: &[String]) -> Option<Asked>
    ensures { result ≡ asked_behind (map string_bytes words.now) }
{
    match words {
        [] => Some(Asked::Saying(Form::Text, None)),
        [word] => asked_by(word.as_str()),
        [first, second] => asked_by_two(first.as_str(), second.as_str()),
        [first, second, third] => asked_by_three(first.as_str(), second.as_str(), third.as_str()),
        _ => None,
    }
}

/// Whether a word asks for something, and names no file.
fn asks(word: &str) -> bool
    ensures { result ≡ asks word.now }
{
    matches!(word.as_bytes(), [b'-', ..])
}

/// How many words name files: those before the first that asks for something.
fn file_count(words: &[String]) -> usize
    ensures count { result ≡ file_count (map string_bytes words.now) }
    ensures within { result ≤ length words.now }
{
    for (count, word) in words.iter().enumerate() {
        if asks(word.as_str()) {
            return count;
        }
    }
    words.len()
}

/// Whether so many files go with what is asked.
fn go_with(files: usize, asked: Asked) -> bool
    ensures { result ≡ go_with files asked }
{
    match asked {
        Asked::Saying(_, _) => matches!(files, 0 | 2 | 3),
        Asked::Strictly(_) => matches!(files, 0 | 2),
        Asked::Help | Asked::Version => files == 0,
    }
}

/// What is asked of so many files.
fn request_with(files: usize, asked: Option<Asked>) -> Option<Request>
    ensures { result ≡ request_with files asked }
{
    match asked {
        Some(asked) => {
            if go_with(files, asked) {
                Some(Request { asked, files })
            } else {
                None
            }
        }
        None => None,
    }
}

/// What the words behind the program's name ask for, and of how many files.
fn request_behind(words: &[String]) -> Option<Request>
    ensures { result ≡ request_behind (map string_bytes words.now) }
{
    let files = file_count(words);
    let (_named, asking) = words.split_at(files);
    request_with(files, read_behind(asking))
}

/// What the words ask for, and of how many files, the program's name first. `None` where they ask for nothing that the program does.
pub(crate) fn read_words(words: &[String]) -> Option<Request>
    ensures { result ≡ request_of (map string_bytes words.now) }
{
    match words {
        [_, behind @ ..] => request_behind(behind),
        _ => None,
    }
}

/// Whether a word asks for JSON, whatever the others are.
pub(crate) fn name_json(words: &[String]) -> bool {
    words.iter().any(|word| word.as_str() == "--json")
}
