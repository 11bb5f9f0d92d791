//! The marks of a token.
ghost use Rattle.std.specs.Prelude.{◌≡◌, ◌≤◌, ◌||◌, ◌==◌, length};
ghost use Rattle.abnfread.specs.MarkedTokens.{indent_at as indent_of, begins_rule as begins};

fn is_space(b: u8) -> bool
    ensures { result ≡ ((b == 32) || (b == 9)) }
{
    b == b' ' || b == b'\t'
}

// Returns how many spaces and tabs stand before the position on its line, if nothing else does.
pub(crate) fn indent_at(text: &[u8], position: usize) -> Option<usize>
    requires { position ≤ length text.now }
    ensures { result ≡ indent_of text.now position }
{
    let mut size = 0;
    let mut rest = &text[..position];
    while let Some((last, front)) = rest.split_last() {
        if *last == b'\n' {
            return Some(size);
        }
        if !is_space(*last) {
            return None;
        }
        rest = front;
        size += 1;
    }
    Some(size)
}

pub(crate) fn begins_rule(margin: Option<usize>, indent: Option<usize>) -> bool
    ensures { result ≡ begins margin indent }
{
    match (margin, indent) {
        (Some(most), Some(size)) => size <= most,
        _ => false,
    }
}
