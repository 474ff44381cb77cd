// The words that a program is started with: names of files, and options.
#![tactic(auto)]

ghost use Rattle.std.specs.Prelude.{◌≡◌, ◌≤◌, length};
ghost use Rattle.text.specs.Text.{ascii};
ghost use Rattle.words.specs.Words.{same as sameWord};
ghost use Rattle.options.specs.Options.{option_of, meaning, Meant, Requested, names_of, Refused};

use std::env::FillError;
use std::io::Write;
use std::rt::Env;
use words::{same, starts_with};

// What a word that is no name asks for.
#[derive(Clone, Copy, PartialEq, Eq)]
pub enum Word {
    // -h or --help
    Help,
    // --version
    Version,
    // `--`: every word behind it is a name
    Rest,
    // a dash and more that is no option
    Unknown,
}

// Which option a word with a dash in front is.
#[tactic(auto, unfolding(crate::specs::Options::option_of, words::specs::Words::same, words::specs::Words::starts_with))]
fn option(bytes: &[u8]) -> Word
    ensures { result ≡ option_of bytes.now }
{
    match bytes {
        b"--" => Word::Rest,
        b"-h" | b"--help" => Word::Help,
        b"--version" => Word::Version,
        _ => Word::Unknown,
    }
}

// A dash alone, which names standard input.
pub fn is_dash(word: &[u8]) -> bool
    ensures { result ≡ sameWord (ascii "-") word.now }
{
    same(word, b"-")
}

// What a word asks for; a name, a dash alone among them, asks for nothing.
#[tactic(auto, unfolding(crate::specs::Options::meaning))]
pub fn classify(bytes: &[u8]) -> Option<Word>
    ensures { result ≡ meaning bytes.now }
{
    if is_dash(bytes) {
        return None;
    }
    if starts_with(bytes, b"-") {
        return Some(option(bytes));
    }
    None
}

// What the arguments ask for together.
#[derive(Clone, Copy)]
pub struct Request {
    // The first of them that is no name, and its place.
    pub first: Option<(usize, Word)>,
    // How many arguments there are, the program's own name among them.
    pub count: usize,
}

// An argument in a buffer: the bytes that it has there. One that has no room is there as far as it goes.
pub fn argument<A: Env>(arguments: &A, i: usize, room: &mut [u8]) -> usize
    ensures { result ≤ length room.new }
{
    match arguments.arg(i, room) {
        Ok(n) => n,
        Err(FillError::TooLong) => room.len(),
        Err(FillError::NotPresent) => 0,
    }
}

fn is_argument<A: Env>(arguments: &A, i: usize) -> bool {
    let mut room = [0u8; 1];
    !matches!(arguments.arg(i, &mut room), Err(FillError::NotPresent))
}

// How many arguments there are, the program's own name among them.
fn argument_count<A: Env>(arguments: &A) -> usize {
    (0..usize::MAX)
        .find(|i| !is_argument(arguments, *i))
        .unwrap_or(usize::MAX)
}

fn word_at<A: Env>(arguments: &A, i: usize) -> Option<Word>
    ensures { Meant result }
{
    let mut room = [0u8; 4096];
    let n = argument(arguments, i, &mut room);
    classify(&room[..n])
}

pub fn read_request<A: Env>(arguments: &A) -> Request
    ensures { Requested result }
{
    let count = argument_count(arguments);
    for i in 1..count {
        if let Some(word) = word_at(arguments, i) {
            return Request {
                first: Some((i, word)),
                count,
            };
        }
    }
    Request { first: None, count }
}

impl Request {
    // How many names there are, where no option but `--` is among the arguments: all but the program's own and `--`.
    pub fn name_count(&self) -> usize
        ensures { result ≡ names_of self.now }
    {
        let others = if self.first.is_none() { 1 } else { 2 };
        self.count.saturating_sub(others)
    }
}

// Says that the option at a place is unknown, as `messages::say` does.
pub fn refuse<A: Env, E: Write>(
    arguments: &A,
    errors: &mut E,
    room: &mut [u8],
    program: &[u8],
    i: usize,
) -> usize
    ensures { Refused program.now room.old room.new result }
{
    let mut word = [0u8; 4096];
    let n = argument(arguments, i, &mut word);
    messages::say(
        errors,
        room,
        program,
        &word[..n],
        b"unknown option; --help lists the options",
    )
}
