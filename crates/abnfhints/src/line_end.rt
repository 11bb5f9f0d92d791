//! Ends of lines.
ghost use Rattle.std.specs.Prelude.{◌≡◌};
ghost use Rattle.abnfhints.specs.LineEnds.{end_byte};

/// The byte that ends a line.
#[derive(Clone, Copy)]
pub enum LineEnd {
    /// LF.
    Lf,
    /// A NUL byte.
    Nul,
}

impl LineEnd {
    /// Returns the byte.
    pub fn byte(self) -> u8
        ensures { result ≡ end_byte self }
    {
        match self {
            LineEnd::Lf => b'\n',
            LineEnd::Nul => 0,
        }
    }
}
