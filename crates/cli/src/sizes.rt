//! The sizes in the words of a command line: `64k` for 65536.
ghost use Rattle.std.specs.Prelude.{◌≡◌, ◌++◌, IfOk, MatchOption, map, string_bytes};
ghost use Rattle.cli.specs.LimitWords.{ArePlain, IsNoSize, IsPlain, IsPlainWord, IsSize, IsSplitWord, IsUnsplit};
ghost use Rattle.cli.specs.LimitWords.{role_after, unit_of};

use itoa::Buffer;
use std::alloc::{AllocError, Global};
use toolrun::MAX_LIMIT;

/// The role of a word, which the words before it give.
#[derive(Clone, Copy)]
pub(crate) enum Role {
    /// The name of the program.
    Name,
    /// An option, or another word.
    Free,
    /// The value of the limit.
    Value,
    /// A word after `--`.
    Ended,
}

impl Role {
    /// Returns the role of the word after a word of this role.
    fn after(self, word: &str) -> Role
        ensures { result ≡ role_after self word.now }
    {
        match self {
            Role::Name | Role::Value => Role::Free,
            Role::Ended => Role::Ended,
            Role::Free => match word {
                "--" => Role::Ended,
                "-l" | "--limit" => Role::Value,
                _ => Role::Free,
            },
        }
    }
}

/// Returns how many bytes a letter stands for; 0 where it is the letter of no unit.
fn unit_of(letter: u8) -> u64
    ensures { result ≡ unit_of letter }
{
    match letter {
        b'k' | b'K' => 1024,
        b'M' => 1_048_576,
        _ => 0,
    }
}

/// Returns the number of bytes that a size stands for; `None` if the text is no size.
fn size_of(text: &str) -> Option<u64>
    ensures { MatchOption result (IsNoSize text.now) (IsSize text.now) }
{
    let letter = *text.as_bytes().last()?;
    let (digits, _) = text.split_at_checked(text.len() - 1)?;
    let count = digits.parse::<u32>().ok()?;
    let size = count as u64 * unit_of(letter);
    if size == 0 || size > MAX_LIMIT as u64 {
        return None;
    }
    Some(size)
}

/// Appends a text, or the number of bytes that it stands for if it is a size. `AllocError` if an allocation fails.
fn push_plain(out: &mut String, text: &str) -> Result<(), AllocError>
    ensures { IfOk result (λ _. (new : _) × IsPlain text.now new
        × (string_bytes out.new ≡ string_bytes out.old ++ new)) }
{
    match size_of(text) {
        Some(size) => out.push_str(Buffer::new().format(size)),
        None => out.push_str(text),
    }
}

/// Returns the text before the value of a limit in a word, and that value; `None` if the word has none.
fn split_word(role: Role, word: &str) -> Option<(&str, &str)>
    ensures { MatchOption result (IsUnsplit role word.entry.now)
        (λ parts. IsSplitWord role word.entry.now parts.0.now parts.1.now) }
{
    match role {
        Role::Value => Some(("", word)),
        Role::Free => match word.strip_prefix("-l") {
            Some(value) => Some(("-l", value)),
            None => Some(("--limit=", word.strip_prefix("--limit=")?)),
        },
        Role::Name | Role::Ended => None,
    }
}

/// Returns a word with its size as a number. `AllocError` if an allocation fails.
fn plain_word(alloc: Global, role: Role, word: &str) -> Result<String, AllocError>
    ensures { IfOk result (λ new. IsPlainWord role word.now (string_bytes new)) }
{
    match split_word(role, word) {
        Some((front, value)) => {
            let mut new = String::from_str(alloc, front)?;
            push_plain(&mut new, value)?;
            Ok(new)
        }
        None => String::from_str(alloc, word),
    }
}

/// Returns the words of a command line with each size of a limit as a number: `-l 65536` for `-l 64k`. The first word
/// is the program's name. Words after `--` and words that are no size stay. `AllocError` if an allocation fails.
pub fn plain_words(alloc: Global, words: &[String]) -> Result<Vec<String>, AllocError>
    ensures { IfOk result (λ plain. (role : _) × ArePlain role (map string_bytes words.now)
        (map string_bytes plain.items)) }
{
    let mut plain = Vec::new(alloc);
    let mut role = Role::Name;
    for word in words {
        let text = word.as_str();
        let new = plain_word(alloc, role, text)?;
        plain.push(new)?;
        role = role.after(text);
    }
    Ok(plain)
}
