//! Templates, cut where the capture is put in.
ghost use Rattle.std.specs.Prelude.{◌≡◌, ◌≤◌, ℕ, List, length, take, drop, reverse, slice_range, IfOk};
ghost use Rattle.pegnodes.specs.Nodes.{shapes_of};
ghost use Rattle.pegnodes.specs.Slots.{run_text, put_in, AreSlots, IsMore, IsCut, AreCuts};
ghost use Rattle.pegnodes.specs.Templates.{is_word, is_blank, Piece, filled_piece, filled, cut_front, trimmed};

use crate::node::Node;
use ruletable::Memory;
use std::alloc::Global;

/// The text that is put in a slot.
#[derive(Clone, Copy)]
pub enum Put {
    /// The capture.
    Capture,
    /// The capture's length, in decimal.
    Length,
}

/// A word of a template that the capture or its length replaces. Its offsets count the bytes of the action's text.
#[derive(Clone, Copy)]
pub struct Slot {
    /// Where the word begins.
    pub from: usize,
    /// Where the word ends.
    pub to: usize,
    /// The text that replaces it.
    pub put: Put,
}

/// The cut of an action's text. Its offsets count the bytes of the text.
#[derive(Drop)]
pub struct Template {
    /// Where the text begins, without the blanks before it.
    pub from: usize,
    /// Where the text ends, without the blanks after it.
    pub to: usize,
    /// The slots, in order.
    pub slots: Vec<Slot>,
}

fn is_word_byte(b: u8) -> bool
    ensures { result ≡ is_word b }
{
    matches!(b, b'a'..=b'z' | b'A'..=b'Z' | b'0'..=b'9' | b'_')
}

fn is_blank_byte(b: u8) -> bool
    ensures { result ≡ is_blank b }
{
    matches!(b, b' ' | b'\t' | b'\r' | b'\n')
}

/// Returns the number of blanks at a text's front.
#[tactic(auto, using(crate::proofs::CutFrontLemmas::front_blank, crate::proofs::CutFrontLemmas::front_other))]
fn front_blanks(text: &[u8]) -> usize
    ensures within { result ≤ length text.now }
    ensures value { drop result text.now ≡ cut_front text.now }
{
    for (i, b) in text.iter().enumerate() {
        if !is_blank_byte(*b) {
            return i;
        }
    }
    text.len()
}

/// Returns where the blanks at a text's end begin.
#[tactic(auto, using(crate::proofs::CutFrontLemmas::back_blank, crate::proofs::CutFrontLemmas::back_other))]
fn back_blanks(text: &[u8]) -> usize
    ensures within { result ≤ length text.now }
    ensures value { reverse (take result text.now) ≡ cut_front (reverse text.now) }
{
    let mut end = text.len();
    while end > 0 && is_blank_byte(text[end - 1]) {
        end -= 1;
    }
    end
}

// Returns what takes the position of a run of word bytes; `None` where it stands.
fn put_for(run: &[u8]) -> Option<Put>
    ensures { (capture : List ℕ) → filled_piece capture (Piece.Word run.now) ≡ run_text capture run.now result }
{
    if run == b"yytext".as_slice() {
        Some(Put::Capture)
    } else if run == b"yyleng".as_slice() {
        Some(Put::Length)
    } else {
        None
    }
}

// Adds the slot of a run of word bytes, if something takes its place.
fn add_slot(text: &[u8], from: usize, to: usize, slots: &mut Vec<Slot>) -> Result<(), Memory>
    requires order { from ≤ to }
    requires within { to ≤ length text.now }
    ensures { IfOk result (λ _. IsMore text.now from to slots.old.items slots.new.items) }
{
    if let Some(put) = put_for(&text[from..to]) {
        slots.push(Slot { from, to, put })?;
    }
    Ok(())
}

// Returns the slots of a text between two positions.
fn slots_of(alloc: Global, text: &[u8], from: usize, to: usize) -> Result<Vec<Slot>, Memory>
    requires order { from ≤ to }
    requires within { to ≤ length text.now }
    ensures order { IfOk result (λ slots. AreSlots from slots.items to) }
    ensures text { IfOk result (λ slots. (capture : List ℕ) → filled (slice_range text.now from to) capture
        ≡ put_in text.now capture from slots.items to) }
{
    let mut slots = Vec::new(alloc);
    let mut run = from;
    for i in from..to {
        if !is_word_byte(text[i]) {
            add_slot(text, run, i, &mut slots)?;
            run = i + 1;
        }
    }
    add_slot(text, run, to, &mut slots)?;
    slots.shrink_to_fit();
    Ok(slots)
}

/// Cuts an action's text.
///
/// `Memory` if an allocation fails.
pub(crate) fn cut_template(alloc: Global, text: &[u8]) -> Result<Template, Memory>
    ensures { IfOk result (λ cut. IsCut text.now cut) }
{
    let from = front_blanks(text);
    let to = from + back_blanks(&text[from..]);
    let slots = slots_of(alloc, text, from, to)?;
    Ok(Template { from, to, slots })
}

/// The cuts of a grammar's templates.
#[derive(Drop)]
pub struct Templates {
    /// Of each node the index of its template's cut.
    pub positions: Vec<usize>,
    /// The cuts.
    pub cuts: Vec<Template>,
}

/// Cuts the templates of the actions among the nodes.
///
/// `Memory` if an allocation fails.
pub fn cut_templates(alloc: Global, nodes: &[Node]) -> Result<Templates, Memory>
    ensures { IfOk result (λ all. AreCuts (shapes_of nodes.now) all.positions.items all.cuts.items) }
{
    let mut positions = Vec::with_capacity(alloc, nodes.len())?;
    let mut cuts = Vec::new(alloc);
    for node in nodes {
        positions.push(cuts.len())?;
        if let Node::Act(text) = node {
            cuts.push(cut_template(alloc, text)?)?;
        }
    }
    Ok(Templates { positions, cuts })
}
