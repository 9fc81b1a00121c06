// The words of the command line.
ghost use Rattle.std.specs.Prelude.{◌≡◌, map, string_bytes, option_map, IfOk};
ghost use Rattle.std.specs.Char.{is_ascii_digit};
ghost use Rattle.std.specs.List.{list_all};
ghost use Rattle.icq_top.specs.Words.{Gives, is_plain, number_of, numbers_of, parts_of, is_increasing, drops_in, drop_text, drops_of_words};
ghost use Rattle.icq_top.specs.declared.words.WordsNo.TheVariants.{Memory};

use ic_base::Drops;
use std::alloc::{AllocError, AllocFailed, Global};

/// The most numbers that a word `drop` has.
const MOST_DROPS: usize = 64;

/// Why words aren't a command.
#[derive(Clone, Copy, Debug, PartialEq, Eq)]
pub enum WordsNo {
    /// The caller: no command has these words.
    Usage,
    /// Out of memory.
    Memory,
}

impl From<AllocError> for WordsNo {
    ghost from_gives = { λ _ e. e ≡ Memory };

    fn from(_: AllocError) -> Self {
        WordsNo::Memory
    }
}

impl<T: Drop> From<AllocFailed<T>> for WordsNo {
    ghost from_gives = { λ _ e. e ≡ Memory };

    fn from(_: AllocFailed<T>) -> Self {
        WordsNo::Memory
    }
}

fn all_digits(text: &[u8]) -> bool
    ensures { result ≡ list_all is_ascii_digit text.now }
{
    text.iter().all(|byte| byte.is_ascii_digit())
}

// Whether these are decimal digits without a leading 0.
fn is_plain(text: &[u8]) -> bool
    ensures { result ≡ is_plain text.now }
{
    !text.is_empty() && text[0] != b'0' && all_digits(text)
}

// A number that a send can have.
fn read_number(text: &str) -> Option<u32>
    ensures { result ≡ number_of text.now }
{
    if is_plain(text.as_bytes()) {
        text.parse().ok()
    } else {
        None
    }
}

// The parts between commas.
fn parts_of(alloc: Global, text: &str) -> Result<Vec<&str>, AllocError>
    ensures { IfOk result (λ parts. map (λ part. part.now) parts.items ≡ parts_of text.now) }
{
    text.split(',').collect(alloc)
}

fn read_numbers(alloc: Global, texts: &[&str]) -> Result<Vec<u32>, WordsNo>
    ensures { Gives (λ v. v.items) result (numbers_of (map (λ text. text.now) texts.now)) }
{
    let mut numbers = Vec::with_capacity(alloc, texts.len())?;
    for text in texts {
        match read_number(text) {
            Some(number) => numbers.push(number)?,
            None => return Err(WordsNo::Usage),
        }
    }
    Ok(numbers)
}

fn is_increasing(numbers: &[u32]) -> bool
    ensures { result ≡ is_increasing numbers.now }
{
    let Some((first, rest)) = numbers.split_first() else {
        return true;
    };
    let mut before = *first;
    for number in rest {
        if *number <= before {
            return false;
        }
        before = *number;
    }
    true
}

// The numbers of a word `drop`.
fn read_drops(alloc: Global, text: &str) -> Result<Drops, WordsNo>
    ensures { Gives (λ d. d) result (drops_in text.now) }
{
    let parts = parts_of(alloc, text)?;
    if parts.len() > MOST_DROPS {
        return Err(WordsNo::Usage);
    }
    let numbers = read_numbers(alloc, &parts)?;
    if is_increasing(&numbers) {
        Ok(Drops::from_vec(numbers))
    } else {
        Err(WordsNo::Usage)
    }
}

// What follows `drop=`.
fn drop_text(word: &str) -> Option<&str>
    ensures { option_map (λ text. text.now) result ≡ drop_text word.now }
{
    word.strip_prefix("drop=")
}

/// The sends that are lost by the words after the program's name: none by `sim`, those listed by `sim drop=1,3`.
/// Every other list of words is no command.
pub fn read_words(alloc: Global, words: &[String]) -> Result<Drops, WordsNo>
    // Exactly if the words aren't `sim` and at most one word `drop`, the answer is Usage.
    ensures exact { Gives (λ d. d) result (drops_of_words (map string_bytes words.now)) }
{
    match words {
        [command] if command.as_str() == "sim" => Ok(Drops::new(alloc)),
        [command, word] if command.as_str() == "sim" => match drop_text(word.as_str()) {
            Some(text) => read_drops(alloc, text),
            None => Err(WordsNo::Usage),
        },
        _ => Err(WordsNo::Usage),
    }
}
