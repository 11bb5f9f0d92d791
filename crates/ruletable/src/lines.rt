//! Lines of a text.
ghost use Rattle.std.specs.Prelude.{◌≡◌};
ghost use Rattle.ruletable.specs.Lines.{line_at, ends_line};

/// Which bytes end a line.
#[derive(Clone, Copy)]
pub enum LineRule {
    /// LF alone.
    Lf,
    /// LF, CR LF (once) and CR.
    Any,
}

fn is_line_end(b: u8, after: &[u8], rule: LineRule) -> bool
    ensures { result ≡ ends_line rule b after.now }
{
    match rule {
        LineRule::Lf => b == b'\n',
        LineRule::Any => b == b'\n' || (b == b'\r' && !starts_with_lf(after)),
    }
}

ghost use Rattle.ruletable.specs.Lines.{begins_with_lf};

fn starts_with_lf(bytes: &[u8]) -> bool
    ensures { result ≡ begins_with_lf bytes.now }
{
    match bytes.first() {
        Some(b) => *b == b'\n',
        None => false,
    }
}

/// Returns the line, from 1, of the byte at an offset: 1 and the line ends that lie wholly before it.
pub fn line_of(text: &[u8], offset: usize, rule: LineRule) -> usize
    ensures { result ≡ line_at rule text.now offset }
{
    let mut line = 1;
    let mut rest = text;
    let mut left = offset;
    while let Some((first, tail)) = rest.split_first() {
        if left == 0 {
            break;
        }
        if is_line_end(*first, tail, rule) {
            line += 1;
        }
        rest = tail;
        left -= 1;
    }
    line
}
