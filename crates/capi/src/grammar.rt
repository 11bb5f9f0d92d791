//! A grammar in ABNF that was opened for its rules.
ghost use Rattle.std.specs.Prelude.{◌≡◌, IfOk, IfSome};
ghost use Rattle.abnfcheck.specs.AbnfGrammar.{IsSoundGrammar};
ghost use Rattle.capi.specs.GrammarsCompared.{HoldsRules, IsGrammarOpening, opened_code};

use crate::reported::text_of_fault;
use abnfcheck::{AllRules, SoundAbnf};
use abnfrun::{AbnfLanguage, AbnfSettings};
use ruletable::Memory;
use std::alloc::Global;
use toolrun::open;

/// A grammar in ABNF that was opened for its rules.
#[derive(Drop)]
pub(crate) struct OpenGrammar {
    /// The messages on it.
    pub(crate) reported: Vec<u8>,
    /// The grammar, unless it is rejected.
    pub(crate) grammar: Option<SoundAbnf>,
}

/// Returns the grammar of these rules and that judged one, unless there is none.
fn grammar_of(rules: AllRules, judged: Option<usize>) -> Option<SoundAbnf>
    requires { IfSome judged (λ id. IsSoundGrammar (record { rules = rules.rules; judged = id })) }
    ensures { HoldsRules rules.rules judged result }
{
    match judged {
        Some(id) => Some(SoundAbnf::new(rules.rules, id)),
        None => None,
    }
}

/// Reads and checks a text as settings ask. Returns the messages on it, and its grammar, unless it is rejected. Returns
/// `Memory` if an allocation fails.
pub(crate) fn open_grammar(
    alloc: Global,
    text: &[u8],
    settings: &AbnfSettings<'_>,
) -> Result<OpenGrammar, Memory>
    ensures { IfOk result (λ o. IsGrammarOpening text.now settings.now o.reported.items o.grammar
        (opened_code o.grammar)) }
{
    match open::<AbnfLanguage>(alloc, text, settings) {
        Ok(opened) => Ok(OpenGrammar {
            reported: opened.diagnostics,
            grammar: grammar_of(opened.rules, opened.judged),
        }),
        Err(fault) => {
            let reported = text_of_fault::<AbnfLanguage>(alloc, text, settings, fault)?;
            Ok(OpenGrammar {
                reported,
                grammar: None,
            })
        }
    }
}
