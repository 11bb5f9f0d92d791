//! Counts of lists.
ghost use Rattle.std.specs.Prelude.{◌≡◌, ◌≤◌, length, option_map};
ghost use Rattle.std.specs.Char.{is_ascii_digit};
ghost use Rattle.std.specs.List.{prefix_len};
ghost use Rattle.rfcforms.specs.Lists.{are_digits as only_digits, count_spelled, number_spelled};

/// The count for which all greater ones stand. No grammar reads it less one.
const GREATEST: usize = 4_294_967_297;

/// Returns how many digits begin a text.
pub(crate) fn digit_count(text: &[u8]) -> usize
    ensures count { result ≡ prefix_len is_ascii_digit text.now }
    ensures within { result ≤ length text.now }
{
    let mut size = 0;
    let mut rest = text;
    while let Some((first, tail)) = rest.split_first() {
        if !first.is_ascii_digit() {
            break;
        }
        rest = tail;
        size += 1;
    }
    size
}

/// Whether a text has digits alone.
pub(crate) fn are_digits(text: &[u8]) -> bool
    ensures { result ≡ only_digits text.now }
{
    digit_count(text) == text.len()
}

// The number that digits spell, or `GREATEST` if it is greater.
fn number_in(digits: &[u8]) -> usize
    ensures { result ≡ number_spelled 0 digits.now }
{
    let mut value = 0;
    let mut rest = digits;
    while let Some((first, tail)) = rest.split_first() {
        value = (value * 10 + first.saturating_sub(48) as usize).min(GREATEST);
        rest = tail;
    }
    value
}

/// Returns the count that digits spell; none if there are none.
pub(crate) fn count_in(digits: &[u8]) -> Option<usize>
    ensures { result ≡ count_spelled digits.now }
{
    if digits.is_empty() {
        return None;
    }
    Some(number_in(digits))
}
