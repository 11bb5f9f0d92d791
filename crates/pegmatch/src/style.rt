//! How actions are printed.

/// How the template of an action is printed.
#[derive(Clone, Copy, Drop)]
pub struct PrintStyle {
    /// Whether it is printed verbatim: not trimmed, no LF added. `yytext` and `yyleng` are still replaced.
    pub raw: bool,
    /// Whether `\n`, `\t`, `\r`, `\\` and `\xHH` in it stand for bytes.
    pub escapes: bool,
}
