//! The flags that forms of `--expand` stand for.
ghost use Rattle.std.specs.Prelude.{◌≡◌, ◌||◌, IfOk, codes, if◌then◌else◌, map, string_bytes};
ghost use Rattle.std.specs.Str.{bytes_eq};
ghost use Rattle.abnfx.specs.FlagWords.{flag_of as the_flag, flags_of};

use std::alloc::{AllocError, Global};

// Returns the flag that a word stands for, or the word.
fn flag_of(word: &str) -> &str
    ensures { result.now ≡ the_flag word.entry.now }
{
    match word {
        "--expand=send" => "--expand-send",
        "--expand=receive" => "--expand",
        _ => word,
    }
}

// Returns what stands for a word, which stays where `--` stands before it. `AllocError` if an allocation fails.
fn flag_word(alloc: Global, ended: bool, word: &str) -> Result<String, AllocError>
    ensures { IfOk result (λ new. string_bytes new ≡ if ended then word.now else the_flag word.now) }
{
    if ended {
        String::from_str(alloc, word)
    } else {
        String::from_str(alloc, flag_of(word))
    }
}

// Returns whether `--` stands before the word after this one.
fn has_ended(ended: bool, word: &str) -> bool
    ensures { result ≡ (ended || bytes_eq word.now (codes "--")) }
{
    ended || word == "--"
}

/// Returns the words of a command line with `--expand-send` for `--expand=send`, and `--expand` for `--expand=receive`.
/// Words after `--` stay. `AllocError` if an allocation fails.
pub(crate) fn flag_words(alloc: Global, words: &[String]) -> Result<Vec<String>, AllocError>
    ensures { IfOk result (λ flags. map string_bytes flags.items ≡ flags_of (map string_bytes words.now)) }
{
    let mut flags = Vec::new(alloc);
    let mut ended = false;
    for word in words {
        let text = word.as_str();
        let new = flag_word(alloc, ended, text)?;
        flags.push(new)?;
        ended = has_ended(ended, text);
    }
    Ok(flags)
}
