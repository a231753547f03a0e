ghost use Rattle.channels.specs.WorldText as spec;
ghost use Rattle.channels.specs.WorldText.{texts_of};
ghost use Rattle.std.specs.Char.{is_ascii_digit};
ghost use Rattle.std.specs.List.{list_all, slice_split};
ghost use Rattle.std.specs.Prelude.{◌==◌, ◌≡◌, IfOk, IsTrue, Some, None, if◌then◌else◌};

use lexer::is_name;
use std::alloc::{AllocError, Global};

// The lines of a text.
pub fn lines_of(alloc: Global, text: &str) -> Result<Vec<&str>, AllocError>
    ensures { IfOk result (λ lines. texts_of lines.items
        ≡ slice_split (λ byte. byte == 10) text.now) }
{
    text.split('\n').collect(alloc)
}

// What stands between the spaces of a line.
fn pieces_of(alloc: Global, line: &str) -> Result<Vec<&str>, AllocError>
    ensures { IfOk result (λ pieces. texts_of pieces.items
        ≡ slice_split (λ byte. byte == 32) line.now) }
{
    line.split(' ').collect(alloc)
}

// The words of a line.
pub fn words_of(alloc: Global, line: &str) -> Result<Vec<&str>, AllocError>
    ensures { IfOk result (λ words. texts_of words.items ≡ spec.words_of line.now) }
{
    let pieces = pieces_of(alloc, line)?;
    let mut words = Vec::new(alloc);
    for piece in &pieces {
        if !piece.is_empty() {
            words.push(*piece)?;
        }
    }
    Ok(words)
}

fn all_digits(bytes: &[u8]) -> bool
    ensures { result ≡ list_all is_ascii_digit bytes.now }
{
    bytes.iter().all(|byte| byte.is_ascii_digit())
}

fn is_digits(bytes: &[u8]) -> bool
    ensures { result ≡ spec.is_digits bytes.now }
{
    !bytes.is_empty() && all_digits(bytes)
}

fn is_number(word: &str) -> bool
    ensures { result ≡ spec.is_number word.now }
{
    match word.as_bytes() {
        [b'-', digits @ ..] => is_digits(digits),
        digits => is_digits(digits),
    }
}

// The number that a word writes, where it has 32 bits.
pub fn number_of(word: &str) -> Option<i32>
    requires { IsTrue (spec.is_number word.now) }
    ensures { result ≡ (if spec.is_int (spec.number_of word.now) then Some (spec.number_of word.now)
        else None) }
{
    word.parse::<i32>().ok()
}

fn are_numbers(words: &[&str]) -> bool
    ensures { result ≡ list_all spec.is_number (texts_of words.now) }
{
    for word in words {
        if !is_number(word) {
            return false;
        }
    }
    true
}

// Whether words are a line of a world.
pub fn has_form(words: &[&str]) -> bool
    ensures { result ≡ spec.has_form (texts_of words.now) }
{
    match words {
        [] => true,
        [_] => false,
        [name, sign, numbers @ ..] => is_name(name) && *sign == "=" && are_numbers(numbers),
    }
}
