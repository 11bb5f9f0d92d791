//! The explanations of rejected lines.
ghost use Rattle.std.specs.Prelude.{◌≡◌, ◌+◌, ◌<◌, ◌≤◌, ◌^◌, ℕ, Bool, false, List, [], length, map, take, IfOk, IfSome};
ghost use Rattle.abnfcheck.specs.Derivable.{AreLetters};
ghost use Rattle.abnfcheck.specs.Prefixes.{IsFurthest};
ghost use Rattle.abnfread.specs.Element.{Rule};
ghost use Rattle.ruletable.specs.declared.alphabet.Alphabet.{Alphabet as the_alphabet};
ghost use Rattle.refusedlines.specs.Following.{AreFollowing, DerivesNothing};
ghost use Rattle.abnfread.specs.AbnfViews.{rules_of};
ghost use Rattle.flatgrammar.specs.CalledParts.{AreAwaited};
ghost use Rattle.refusedlines.specs.PartTexts.{AreTextsAfter};
ghost use Rattle.refusedlines.specs.PrunedGrammars.{IsPrunedOf};
ghost use Rattle.ruletable.specs.Rules.{names_of};
ghost use Rattle.ruletable.specs.Letters.{has};
ghost use Rattle.ruletable.specs.Utf8Text.{IsLongestText, Spells, numbers};
ghost use Rattle.refusedlines.specs.RefusedText.{column_after as the_column};
ghost use Rattle.refusedlines.specs.declared.refusal.LineUnit.{LineUnit as the_unit};
ghost use Rattle.refusedlines.specs.Refusals.{
  IsExplained,
  IsRefusalReported,
  octet_count,
  octets as the_octets,
};

use crate::following::{find_following, following_is_one};
use crate::part_texts::{TextSet, part_texts, rule_name};
use crate::parts::awaited_parts;
use crate::pruned::PrunedGrammar;
use crate::refusal::{Refusal, RefusedLine, push_refusal, refused_at};
use abnfcheck::{SoundAbnf, furthest_is_found};
use earley::Chart;
use flatgrammar::DottedRule;
use lazydfa::Automaton;
use lowering::{items_decide, values_are_letters};
use ruletable::{Alphabet, CodePoint, Letter, Memory, decode, utf8_is_decided, utf8_len};
use std::alloc::Global;

/// An explainer of the lines that a grammar rejects.
#[derive(Drop)]
pub struct Explainer<'a> {
    /// The grammar.
    pub grammar: &'a SoundAbnf,
    /// The alphabet of lines.
    pub letters: Alphabet,
    /// The productive parts of the grammar over that alphabet.
    pub pruned: &'a PrunedGrammar,
    /// How many items the sets of a line may have where they are needed; any number if it is `None`.
    pub budget: Option<usize>,
}

/// The longest prefix of a line that is UTF-8.
#[derive(Drop)]
struct FirstPoints {
    /// How many bytes it has.
    size: usize,
    /// Its code points.
    points: Vec<CodePoint>,
}

/// Decodes the longest prefix of a line that is UTF-8 (RFC 3629). Returns its size in bytes and its code points.
/// `Memory` if an allocation fails.
fn first_points(alloc: Global, line: &[u8]) -> Result<FirstPoints, Memory>
    ensures longest { IfOk result (λ f. IsLongestText line.now f.size) }
    ensures spelled { IfOk result (λ f. Spells (numbers f.points.items) (take f.size line.now)) }
{
    let size = utf8_len(line);
    let mut points = Vec::new(alloc);
    let _is_text = decode(&line[..size], &mut points)?;
    Ok(FirstPoints { size, points })
}

// Returns how many bytes a code point has in UTF-8.
fn octets(value: u32) -> usize
    ensures value { result ≡ the_octets Alphabet.Utf8 value }
    ensures small { result ≤ 4 }
{
    if value < 0x80 {
        1
    } else if value < 0x800 {
        2
    } else if value < 0x1_0000 {
        3
    } else {
        4
    }
}

// Returns how many bytes code points have in UTF-8.
fn octets_of(points: &[CodePoint]) -> usize
    requires { octet_count Alphabet.Utf8 (numbers points.now) < 2 ^ 64 }
    ensures { result ≡ octet_count Alphabet.Utf8 (numbers points.now) }
{
    let mut count = 0;
    for point in points {
        count += octets(point.value());
    }
    count
}

// Returns the column after these symbols: how many stand after the last LF, from 1.
fn column_after<L: Letter>(symbols: &[L]) -> usize
    requires { length symbols.now + 1 < 2 ^ 64 }
    ensures { result ≡ the_column (map L.number symbols.now) }
{
    let mut column = 1;
    let mut rest = symbols;
    while let Some((last, front)) = rest.split_last() {
        if last.value() == 10 {
            break;
        }
        rest = front;
        column += 1;
    }
    column
}

// Returns the texts of the parts that can come next after so many symbols of a line, where these dotted rules are
// awaited.
fn texts_of(
    alloc: Global,
    explainer: &Explainer<'_>,
    awaited: &[DottedRule],
) -> Result<TextSet, Memory>
    requires { IsPrunedOf explainer.now.letters (rules_of explainer.now.grammar.now.rules)
        explainer.now.grammar.now.judged explainer.now.pruned.now }
    ensures { IfOk result (λ texts. (x : List ℕ) (n : ℕ) → length x ≤ explainer.now.pruned.now.flat.limit
        → AreLetters (has explainer.now.letters) x → AreAwaited explainer.now.pruned.now.flat x n awaited.now
        → AreTextsAfter explainer.now.letters (rules_of explainer.now.pruned.now.rules)
        explainer.now.grammar.now.judged x n (names_of texts)) }
{
    let pruned = explainer.pruned;
    let parts = awaited_parts(alloc, &pruned.rules, &pruned.flat, &pruned.more, awaited)?;
    part_texts(alloc, explainer.letters, &pruned.rules, &parts)
}

// Explains a rejected line of bytes.
fn explain_bytes(
    alloc: Global,
    chart: &mut Chart,
    automaton: &mut Option<Automaton>,
    explainer: &Explainer<'_>,
    line: RefusedLine<'_>,
    out: &mut Vec<u8>,
) -> Result<(), Memory>
    requires letters { explainer.now.letters ≡ Alphabet.Bytes }
    requires within { length line.bytes.now + 1 ≤ explainer.now.pruned.now.flat.limit }
    requires flat { IfSome automaton.old (λ a. a ≡ explainer.now.pruned.now.flat) }
    requires pruned { IsPrunedOf explainer.now.letters (rules_of explainer.now.grammar.now.rules)
        explainer.now.grammar.now.judged explainer.now.pruned.now }
    ensures flat { IfSome automaton.new (λ a. a ≡ explainer.now.pruned.now.flat) }
    ensures reported { IfOk result (λ done. IsExplained line.entry.unit Alphabet.Bytes
        (rules_of explainer.now.grammar.now.rules) explainer.now.grammar.now.judged line.entry.bytes.now
        line.entry.number out.old.items out.new.items) }
{
    items_decide();
    values_are_letters(line.bytes);
    let following = find_following(
        alloc,
        chart,
        automaton,
        &explainer.pruned.flat,
        explainer.budget,
        line.bytes,
    )?;
    let parts = texts_of(alloc, explainer, &following.awaited)?;
    let position = following.after;
    let at = refused_at(position, line.bytes.len(), false);
    let column = column_after(&line.bytes[..position]);
    let refusal = Refusal {
        alphabet: Alphabet::Bytes,
        at,
        position,
        column,
        following,
        parts,
    };
    let grammar = explainer.grammar;
    let name = rule_name(grammar.rules(), grammar.judged());
    push_refusal(alloc, name, line, &refusal, out)?;
    Ok(())
}

// Explains a rejected line of code points.
fn explain_points(
    alloc: Global,
    chart: &mut Chart,
    automaton: &mut Option<Automaton>,
    explainer: &Explainer<'_>,
    line: RefusedLine<'_>,
    out: &mut Vec<u8>,
) -> Result<(), Memory>
    requires letters { explainer.now.letters ≡ Alphabet.Utf8 }
    requires within { length line.bytes.now + 1 ≤ explainer.now.pruned.now.flat.limit }
    requires flat { IfSome automaton.old (λ a. a ≡ explainer.now.pruned.now.flat) }
    requires pruned { IsPrunedOf explainer.now.letters (rules_of explainer.now.grammar.now.rules)
        explainer.now.grammar.now.judged explainer.now.pruned.now }
    ensures flat { IfSome automaton.new (λ a. a ≡ explainer.now.pruned.now.flat) }
    ensures reported { IfOk result (λ done. IsExplained line.entry.unit Alphabet.Utf8
        (rules_of explainer.now.grammar.now.rules) explainer.now.grammar.now.judged line.entry.bytes.now
        line.entry.number out.old.items out.new.items) }
{
    items_decide();
    let first = first_points(alloc, line.bytes)?;
    let points = first.points.as_slice();
    values_are_letters(points);
    let following = find_following(
        alloc,
        chart,
        automaton,
        &explainer.pruned.flat,
        explainer.budget,
        points,
    )?;
    let parts = texts_of(alloc, explainer, &following.awaited)?;
    let after = following.after;
    let at = refused_at(after, points.len(), first.size < line.bytes.len());
    let before = &points[..after];
    let position = octets_of(before);
    let column = column_after(before);
    let refusal = Refusal {
        alphabet: Alphabet::Utf8,
        at,
        position,
        column,
        following,
        parts,
    };
    let grammar = explainer.grammar;
    let name = rule_name(grammar.rules(), grammar.judged());
    push_refusal(alloc, name, line, &refusal, out)?;
    Ok(())
}

/// Adds the lines that explain a rejected line or record: where it is rejected, what can follow there, a picture of
/// that position, in a record of the line there, if that line is not empty, and the parts that can come next: each name
/// of a rule that derives a line that is not empty, and each terminal, with the rule in whose body it is. Or they
/// report that the judged rule derives nothing.
///
/// The productive parts must be those of the grammar for its symbols, the automaton, if there is one, that of their
/// flat grammar, and the line must have fewer bytes than its `limit()`. The chart is filled anew where the automaton
/// gives no answer.
///
/// # Errors
/// `Memory` if an allocation fails, or sets have more items than the explainer's budget; a part of the lines may be
/// added then.
pub fn explain_refused(
    alloc: Global,
    chart: &mut Chart,
    automaton: &mut Option<Automaton>,
    explainer: &Explainer<'_>,
    line: RefusedLine<'_>,
    out: &mut Vec<u8>,
) -> Result<(), Memory>
    requires within { length line.bytes.now + 1 ≤ explainer.now.pruned.now.flat.limit }
    requires flat { IfSome automaton.old (λ a. a ≡ explainer.now.pruned.now.flat) }
    requires pruned { IsPrunedOf explainer.now.letters (rules_of explainer.now.grammar.now.rules)
        explainer.now.grammar.now.judged explainer.now.pruned.now }
    ensures flat { IfSome automaton.new (λ a. a ≡ explainer.now.pruned.now.flat) }
    ensures reported { IfOk result (λ done. IsExplained line.entry.unit explainer.now.letters
        (rules_of explainer.now.grammar.now.rules) explainer.now.grammar.now.judged line.entry.bytes.now
        line.entry.number out.old.items out.new.items) }
{
    match explainer.letters {
        Alphabet::Bytes => explain_bytes(alloc, chart, automaton, explainer, line, out),
        Alphabet::Utf8 => explain_points(alloc, chart, automaton, explainer, line, out),
    }
}

/// Returns nothing. Its contract is a law: at most one text explains a rejected line.
pub fn refusal_is_one()
    ensures { (unit : the_unit) (alphabet : the_alphabet) (rules : List Rule) (judged : ℕ) (line : List ℕ) (number : ℕ)
        (a b : List ℕ) → IsRefusalReported unit alphabet rules judged line number a
        → IsRefusalReported unit alphabet rules judged line number b → a ≡ b }
{
    furthest_is_found();
    following_is_one();
    items_decide();
    utf8_is_decided();
}

/// Returns nothing. Its contract is a law: if nothing can follow the longest viable prefix of a line, the rule derives
/// nothing.
pub fn nothing_can_stand()
    ensures { (has : ℕ → Bool) (rules : List Rule) (id : ℕ) (x : List ℕ) (n : ℕ) → IsFurthest has rules id x n →
        AreFollowing has rules id x n [] false → DerivesNothing has rules id }
{}
