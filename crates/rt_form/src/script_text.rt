ghost use Rattle.std.specs.Prelude.{◌≡◌, ◌↔◌, ◌++◌, ◌∷◌, ◌≤◌, ◌<◌, ℕ, List, codes, IfOk, IfErr};
ghost use Rattle.std.specs.Prelude.{IsTrue, MatchOption, MatchResult, OnOk};
ghost use Rattle.std.specs.Fmt.{decimal};
ghost use Rattle.rt_wal.specs.Records.{without_last};
ghost use Rattle.rt_form.specs.Script.{AreEnded, AreLines, AreParts, AreSaid, IsClaims, IsScript};
ghost use Rattle.rt_form.specs.Script.{Lacks, claims_tree, slot_line};
ghost use Rattle.rt_form.specs.declared.script.Script as script;

use crate::fault::FormFault;
use crate::insert::inserted_row;
use crate::join::{join_of, tree_of};
use crate::numbers::number_of;
use crate::shapes::{is_text, only_value};
use crate::{Catalogue, Script};
use rt_json::Json;
use rt_value::List;
use std::alloc::Global;

/// The four lines of a script.
#[derive(Clone, Copy)]
struct Lines<'a> {
    opening: &'a str,
    frame: &'a str,
    wal: &'a str,
    poll: &'a str,
}

/// What the lines of a script say.
#[derive(Clone, Copy)]
struct Parts<'a> {
    slot: u8,
    claims: &'a str,
    frame: &'a str,
    line: &'a str,
}

/// What stands before and behind the first byte of a kind.
fn cut(text: &str, byte: char) -> Option<(&str, &str)>
    requires { byte < 128 }
    ensures { MatchOption result ((before after : List ℕ) → Lacks byte before
        → text.now ≡ before ++ byte ∷ after → ⊥)
        (λ parts. Lacks byte parts.0.now × (text.now ≡ parts.0.now ++ byte ∷ parts.1.now)) }
{
    text.split_once(byte)
}

/// What stands behind a word.
fn behind<'a>(text: &'a str, word: &str) -> Option<&'a str>
    ensures { MatchOption result ((rest : List ℕ) → text.now ≡ word.now ++ rest → ⊥)
        (λ rest. text.now ≡ word.now ++ rest.now) }
{
    text.strip_prefix(word)
}

fn slot_of(text: &str) -> Option<u8>
    ensures { MatchOption result ((slot : ℕ) → slot ≤ 255 → text.now ≡ decimal slot → ⊥)
        (λ slot. (slot ≤ 255) × (text.now ≡ decimal slot)) }
{
    let number = number_of(text)?;
    if number <= 255 {
        Some(number as u8)
    } else {
        None
    }
}

/// The slot that a line names behind a word, and what stands behind it.
fn slot_and_rest<'a>(line: &'a str, word: &str) -> Option<(u8, &'a str)>
    ensures { MatchOption result ((slot : ℕ) (rest : List ℕ) → slot ≤ 255
        → line.now ≡ slot_line word.now slot rest → ⊥)
        (λ found. (found.0 ≤ 255) × (line.now ≡ slot_line word.now found.0 found.1.now)) }
{
    let (slot, rest) = cut(behind(line, word)?, ' ')?;
    Some((slot_of(slot)?, rest))
}

/// Four parts of a text, each with an LF behind it, and nothing behind them.
fn ended_lines(text: &str) -> Option<Lines<'_>>
    ensures { MatchOption result ((opening frame wal poll : List ℕ)
        → AreEnded text.now opening frame wal poll → ⊥)
        (λ lines. AreEnded text.now lines.opening.now lines.frame.now lines.wal.now lines.poll.now) }
{
    let (opening, rest) = cut(text, '\n')?;
    let (frame, rest) = cut(rest, '\n')?;
    let (wal, rest) = cut(rest, '\n')?;
    let (poll, rest) = cut(rest, '\n')?;
    if rest.is_empty() {
        Some(Lines {
            opening,
            frame,
            wal,
            poll,
        })
    } else {
        None
    }
}

/// A line without a CR at its end.
fn without_cr(line: &str) -> &str
    ensures { result.now ≡ without_last 13 line.now }
{
    match line.strip_suffix('\r') {
        Some(rest) => rest,
        None => line,
    }
}

/// The four lines of a text, each ended by LF, and nothing behind them. A CR before an LF is no
/// part of a line.
fn lines_of(text: &str) -> Option<Lines<'_>>
    ensures { MatchOption result ((opening frame wal poll : List ℕ)
        → AreLines text.now opening frame wal poll → ⊥)
        (λ lines. AreLines text.now lines.opening.now lines.frame.now lines.wal.now lines.poll.now) }
{
    let lines = ended_lines(text)?;
    Some(Lines {
        opening: without_cr(lines.opening),
        frame: without_cr(lines.frame),
        wal: without_cr(lines.wal),
        poll: without_cr(lines.poll),
    })
}

/// The slot, the claims, the frame and the record of a text's lines.
fn parts_of(text: &str) -> Option<Parts<'_>>
    ensures { MatchOption result ((slot : ℕ) (claims frame entry : List ℕ)
        → AreParts text.now slot claims frame entry → ⊥)
        (λ parts. AreParts text.now parts.slot parts.claims.now parts.frame.now parts.line.now) }
{
    let lines = lines_of(text)?;
    let (slot, version) = slot_and_rest(lines.opening, "open ")?;
    let claims = behind(version, "1.0.0 ")?;
    let (framed, frame) = slot_and_rest(lines.frame, "frame ")?;
    let line = behind(lines.wal, "wal ")?;
    if framed != slot {
        return None;
    }
    if lines.poll != "poll" {
        return None;
    }
    Some(Parts {
        slot,
        claims,
        frame,
        line,
    })
}

fn has_backslash(text: &str) -> bool
    ensures { IsTrue result ↔ (Lacks 92 text.now → ⊥) }
{
    text.contains('\\')
}

fn is_claims(tree: &Json, role: &str) -> bool
    ensures { IsTrue result ↔ (tree.now ≡ claims_tree role.now) }
{
    match only_value(tree, "role") {
        Some(name) => is_text(name, role),
        None => false,
    }
}

/// Whether claims are the one member `role`, and name this one.
fn are_claims(alloc: Global, claims: &str, role: &str) -> Result<(), FormFault>
    ensures found { OnOk result (IsClaims role.now claims.now) }
    ensures only { IsClaims role.now claims.now → IfErr result
        (λ fault. fault ≡ FormFault.NoMemory) }
{
    let tree = tree_of(alloc, claims)?;
    if is_claims(&tree, role) {
        Ok(())
    } else {
        Err(FormFault::NotBuilt)
    }
}

/// The script of these parts, for the table and the role of the catalogue.
fn script_of(alloc: Global, catalogue: &Catalogue, parts: Parts<'_>) -> Result<Script, FormFault>
    ensures found { let p = parts.entry in IfOk result (λ script.
        AreSaid catalogue.now p.slot p.claims.now p.frame.now p.line.now script) }
    ensures only { let p = parts.entry in (script : script.Script)
        → AreSaid catalogue.now p.slot p.claims.now p.frame.now p.line.now script
        → MatchResult result (λ found. found ≡ script) (λ fault. fault ≡ FormFault.NoMemory) }
{
    are_claims(alloc, parts.claims, catalogue.role.get())?;
    let join = join_of(alloc, parts.frame, catalogue.table.name.get())?;
    let row = inserted_row(alloc, parts.line, &catalogue.table)?;
    let slot = parts.slot;
    Ok(Script { slot, join, row })
}

/// The script that the bytes are, for the table and the role of the catalogue. `NotBuilt` where
/// they are no script of the built form.
pub fn read_script(alloc: Global, catalogue: &Catalogue, bytes: &[u8]) -> Result<Script, FormFault>
    ensures found { IfOk result (λ script. IsScript catalogue.now bytes.now script) }
    ensures only { (script : script.Script) → IsScript catalogue.now bytes.now script
        → MatchResult result (λ found. found ≡ script) (λ fault. fault ≡ FormFault.NoMemory) }
{
    let Ok(text) = std::str::from_utf8(bytes) else {
        return Err(FormFault::NotBuilt);
    };
    if has_backslash(text) {
        return Err(FormFault::NotBuilt);
    }
    match parts_of(text) {
        Some(parts) => Ok(script_of(alloc, catalogue, parts)?),
        None => Err(FormFault::NotBuilt),
    }
}
