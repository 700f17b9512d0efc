ghost use Rattle.std.specs.Prelude.{◌≡◌, ◌++◌, ◌∷◌, [], ◌<◌, List, flat_map};
ghost use Rattle.std.specs.Prelude.{OnOk, OnErr, IfOk, IsUtf8};
ghost use Rattle.std.specs.Io.{StartsWith};
ghost use Rattle.std.specs.List.{AllByRecursion};
ghost use Rattle.rt_json.specs.Written.{written, written_member, listed, quoted, written_byte, hex_digit, comma_before};
ghost use Rattle.rt_json.specs.Fits.{FitsWithin, HasUtf8Texts, HasUtf8Member, IsWellNested};
ghost use Rattle.rt_json.specs.Grammar.{IsJson, max_levels};
ghost use Rattle.rt_json.specs.declared.tree.Json.{Json};
ghost use Rattle.rt_json.specs.declared.tree.named.Member.{Member};

use crate::scan::past_plain;
use crate::tree::Json;
use crate::tree::named::Member;
use rt_value::Bytes;
use std::alloc::{AllocError, Global};

/// How many bytes are made room for at first.
const FIRST_ROOM: usize = 512;

fn hex_digit(value: u8) -> u8
    requires { value < 16 }
    ensures { result ≡ hex_digit value }
{
    if value < 10 { b'0' + value } else { 87 + value }
}

#[tactic(auto, unfolding(crate::specs::Written::written_byte))]
fn write_byte(out: &mut Vec<u8>, byte: u8) -> Result<(), AllocError>
    ensures spelling { OnOk result (out.new.items ≡ out.old.items ++ written_byte byte) }
    ensures kept { OnErr result (out.new.items ≡ out.old.items) }
{
    match byte {
        b'"' | b'\\' => out.extend_from_slice(&[b'\\', byte]),
        8 => out.extend_from_slice(b"\\b"),
        b'\t' => out.extend_from_slice(b"\\t"),
        b'\n' => out.extend_from_slice(b"\\n"),
        12 => out.extend_from_slice(b"\\f"),
        b'\r' => out.extend_from_slice(b"\\r"),
        0..=31 => out.extend_from_slice(&[
            b'\\',
            b'u',
            b'0',
            b'0',
            hex_digit(byte / 16),
            hex_digit(byte % 16),
        ]),
        _ => out.extend_from_slice(&[byte]),
    }
}

/// A text in quotes: runs of bytes that stand for themselves, and what stands for each byte between them.
fn write_text(out: &mut Vec<u8>, text: &[u8]) -> Result<(), AllocError>
    ensures spelling { OnOk result (out.new.items ≡ out.old.items ++ quoted text.now) }
    ensures kept { StartsWith out.new.items out.old.items }
{
    out.push(b'"')?;
    let mut at = 0;
    loop {
        let next = past_plain(text, at);
        out.extend_from_slice(&text[at..next])?;
        if next == text.len() {
            out.push(b'"')?;
            return Ok(());
        }
        write_byte(out, text[next])?;
        at = next + 1;
    }
}

/// Writes a text in quotes behind what is there, as `write` spells it. Fails for want of memory
/// alone, and then the bytes are as they were.
pub fn write_text_behind(bytes: &mut Vec<u8>, text: &str) -> Result<(), AllocError>
    ensures spelling { OnOk result (bytes.new.items ≡ bytes.old.items ++ quoted text.now) }
    ensures kept { OnErr result (bytes.new.items ≡ bytes.old.items) }
    ensures utf8 { IsUtf8 bytes.old.items → IsUtf8 bytes.new.items }
{
    let length = bytes.len();
    match write_text(bytes, text.as_bytes()) {
        Ok(()) => Ok(()),
        Err(fault) => {
            bytes.truncate(length);
            Err(fault)
        }
    }
}

/// Writes the comma that stands before an item at this place of a list or an object, which is none
/// before the first.
///
/// Fails for want of memory alone, and then leaves the bytes as they were.
pub fn write_comma(out: &mut Vec<u8>, at: usize) -> Result<(), AllocError>
    ensures ok { OnOk result (out.new.items ≡ out.old.items ++ comma_before at) }
    ensures err { OnErr result (out.new.items ≡ out.old.items) }
{
    if at > 0 {
        out.push(b',')?;
    }
    Ok(())
}

#[cycle(write)]
fn write_value(out: &mut Vec<u8>, tree: &Json) -> Result<(), AllocError>
    ensures spelling { OnOk result (out.new.items ≡ out.old.items ++ written tree.now) }
    ensures utf8 { OnOk result (IsUtf8 out.old.items → IsUtf8 out.new.items) }
    ensures texts { OnOk result (HasUtf8Texts tree.now) }
{
    match tree {
        Json::Null => out.extend_from_slice(b"null"),
        Json::Bool(true) => out.extend_from_slice(b"true"),
        Json::Bool(false) => out.extend_from_slice(b"false"),
        Json::Num(digits) => out.extend_from_slice(digits.get().as_bytes()),
        Json::Text(text) => write_text(out, text.get().as_bytes()),
        Json::List(items) => write_items(out, items.get()),
        Json::Object(members) => write_members(out, members.get()),
    }
}

#[cycle(write)]
fn write_items(out: &mut Vec<u8>, items: &[Json]) -> Result<(), AllocError>
    ensures spelling { OnOk result (out.new.items ≡ out.old.items ++ 91 ∷ listed written items.now ++ 93 ∷ []) }
    ensures utf8 { OnOk result (IsUtf8 out.old.items → IsUtf8 out.new.items) }
    ensures texts { OnOk result (AllByRecursion HasUtf8Texts items.now) }
{
    out.push(b'[')?;
    for (i, item) in items.iter().enumerate() {
        write_comma(out, i)?;
        write_value(out, item)?;
    }
    out.push(b']')?;
    Ok(())
}

#[cycle(write)]
fn write_members(out: &mut Vec<u8>, members: &[Member]) -> Result<(), AllocError>
    ensures spelling { OnOk result (out.new.items ≡ out.old.items ++ 123 ∷ listed written_member members.now ++ 125 ∷ []) }
    ensures utf8 { OnOk result (IsUtf8 out.old.items → IsUtf8 out.new.items) }
    ensures texts { OnOk result (AllByRecursion HasUtf8Member members.now) }
{
    out.push(b'{')?;
    for (i, member) in members.iter().enumerate() {
        write_comma(out, i)?;
        write_member(out, member)?;
    }
    out.push(b'}')?;
    Ok(())
}

#[cycle(write)]
fn write_member(out: &mut Vec<u8>, member: &Member) -> Result<(), AllocError>
    ensures spelling { OnOk result (out.new.items ≡ out.old.items ++ written_member member.now) }
    ensures utf8 { OnOk result (IsUtf8 out.old.items → IsUtf8 out.new.items) }
    ensures texts { OnOk result (HasUtf8Member member.now) }
{
    write_text(out, member.name.get().as_bytes())?;
    out.push(b':')?;
    write_value(out, &member.value)
}

/// The one spelling of a tree behind the bytes that are given: no blanks, the members in order, and no escape that isn't
/// needed. It is read again as the same tree, where the tree's lists and objects nest in at most 64 levels and its numbers
/// are numbers of the grammar. Fails for want of memory alone, and then the bytes are gone.
pub fn write_behind(bytes: Vec<u8>, tree: &Json) -> Result<Vec<u8>, AllocError>
    ensures spelling { IfOk result (λ all. all.items ≡ bytes.items ++ written tree.now) }
    ensures utf8 { IfOk result (λ all. IsUtf8 bytes.items → IsUtf8 all.items) }
    ensures again { IfOk result (λ _. IsWellNested tree.now → IsJson (written tree.now) tree.now) }
{
    let mut out = bytes;
    write_value(&mut out, tree)?;
    Ok(out)
}

/// The one spelling of a tree, as `write_behind` gives it, alone. Fails for want of memory alone.
pub fn write(alloc: Global, tree: &Json) -> Result<Bytes, AllocError>
    ensures spelling { IfOk result (λ bytes. bytes ≡ written tree.now) }
    ensures utf8 { IfOk result (λ bytes. IsUtf8 bytes) }
    ensures again { IfOk result (λ bytes. IsWellNested tree.now → IsJson bytes tree.now) }
{
    let out = write_behind(Vec::with_capacity(alloc, FIRST_ROOM)?, tree)?;
    Ok(Bytes::new(out))
}

/// What is written is read again as the same tree, where its lists and objects nest in at most 64 levels, its numbers
/// are numbers of the grammar and its texts are UTF-8.
pub fn written_again()
    ensures { (tree : Json) → FitsWithin max_levels tree → IsJson (written tree) tree }
{}

/// A list is spelled by its items and an object by its members, with commas between them. So a
/// spelling can be put together from parts that are spelled already.
pub fn written_by_parts()
    ensures list { (items : List Json)
        → written (Json.List items) ≡ 91 ∷ listed written items ++ 93 ∷ [] }
    ensures object { (members : List Member)
        → written (Json.Object members) ≡ 123 ∷ listed written_member members ++ 125 ∷ [] }
{}
