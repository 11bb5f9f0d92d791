//! Findings as JSON, an object a line (RFC 8259).
ghost use Rattle.std.specs.Prelude.{◌≡◌, ◌∷◌, ◌++◌, [], IfOk, OnOk, flat_map, map, string_bytes};
ghost use Rattle.std.specs.Str.Lossy.{utf8_lossy};
ghost use Rattle.json.specs.Token.{key, string};
ghost use Rattle.findings.specs.Findings.{finding_at, further_at};
ghost use Rattle.findings.specs.JsonLines.{further_tokens, head_tokens, json_line, location_tokens};
ghost use Rattle.findings.specs.JsonLines.{words_tokens};

use crate::finding::{Finding, FurtherPosition, Location, Wording};
use json::Writer;
use ruletable::Memory;
use std::alloc::Global;

// Returns a message as text, with U+FFFD for bytes that are not UTF-8.
fn text_of(alloc: Global, message: Wording<'_>) -> Result<String, Memory>
    ensures { IfOk result (λ text. string_bytes text
        ≡ utf8_lossy (message.entry.what.now ++ (message.entry.mark.now ++ message.entry.more.now))) }
{
    let mut bytes = Vec::new(alloc);
    message.push(&mut bytes)?;
    Ok(String::from_utf8_lossy(alloc, &bytes)?)
}

// Writes a member that is a text.
fn write_text(json: &mut Writer, name: &str, text: &str) -> Result<(), Memory>
    ensures tokens { OnOk result (json.new.tokens ≡ json.old.tokens ++ key name.now ∷ string text.now ∷ []) }
    ensures before { json.new.before ≡ json.old.before }
{
    json.key(name)?;
    json.string(text)?;
    Ok(())
}

// Writes the members of a position.
fn write_location(json: &mut Writer, location: Location) -> Result<(), Memory>
    ensures tokens { OnOk result (json.new.tokens ≡ json.old.tokens ++ location_tokens location) }
    ensures before { json.new.before ≡ json.old.before }
{
    json.key("line")?;
    json.u64(location.line as u64)?;
    json.key("column")?;
    json.u64(location.column as u64)?;
    Ok(())
}

// Writes the object of a further position.
fn write_further(
    alloc: Global,
    json: &mut Writer,
    further: &FurtherPosition<'_>,
) -> Result<(), Memory>
    ensures tokens { OnOk result (json.new.tokens ≡ json.old.tokens ++ further_tokens (further_at further.now)) }
    ensures before { json.new.before ≡ json.old.before }
{
    let report = String::from_utf8_lossy(alloc, further.report)?;
    json.begin_object()?;
    write_location(json, further.location)?;
    write_text(json, "message", &report)?;
    json.end_object()?;
    Ok(())
}

// Writes the objects of further positions.
fn write_all_further(
    alloc: Global,
    json: &mut Writer,
    further: &[FurtherPosition<'_>],
) -> Result<(), Memory>
    ensures tokens { OnOk result (json.new.tokens ≡ json.old.tokens
        ++ flat_map further_tokens (map further_at further.now)) }
    ensures before { json.new.before ≡ json.old.before }
{
    for one in further {
        write_further(alloc, json, one)?;
    }
    Ok(())
}

// Writes how grave a finding is, what it is about, and what it says.
fn write_words(alloc: Global, json: &mut Writer, found: Finding<'_>) -> Result<(), Memory>
    ensures tokens { OnOk result (json.new.tokens ≡ json.old.tokens ++ words_tokens (finding_at found.entry)) }
    ensures before { json.new.before ≡ json.old.before }
{
    let message = text_of(alloc, found.message)?;
    write_text(json, "severity", found.severity.name())?;
    write_text(json, "code", found.code.name())?;
    write_text(json, "message", &message)?;
    Ok(())
}

// Writes the members of a finding but for its further positions.
fn write_head(
    alloc: Global,
    json: &mut Writer,
    file: &str,
    found: Finding<'_>,
) -> Result<(), Memory>
    ensures tokens { OnOk result (json.new.tokens ≡ json.old.tokens ++ head_tokens file.now (finding_at found.entry)) }
    ensures before { json.new.before ≡ json.old.before }
{
    write_text(json, "file", file)?;
    write_location(json, found.location)?;
    write_words(alloc, json, found)?;
    Ok(())
}

/// Adds the line of a finding, with its further positions.
pub(crate) fn push_json(
    alloc: Global,
    out: &mut Vec<u8>,
    file: &str,
    found: Finding<'_>,
    further: &[FurtherPosition<'_>],
) -> Result<(), Memory>
    ensures { OnOk result (out.new.items ≡ out.old.items
        ++ json_line file.now (finding_at found.entry) (map further_at further.now)) }
{
    let mut json = Writer::new(Vec::new(alloc));
    json.begin_object()?;
    write_head(alloc, &mut json, file, found)?;
    json.key("notes")?;
    json.begin_array()?;
    write_all_further(alloc, &mut json, further)?;
    json.end_array()?;
    json.end_object()?;
    let line = json.into_inner();
    out.extend_from_slice(&line)?;
    out.push(b'\n')?;
    Ok(())
}
