//! The immediate children of a folder, from the keys of rows.

ghost use Rattle.std.specs.Prelude.{◌≡◌, ◌-◌, [], ◌∷◌, ◌++◌, List, length, slice_get, map, Some};
ghost use Rattle.std.specs.Prelude.{IfOk, OnOk, string_bytes};
ghost use Rattle.broker_types.specs.Fault.{IsMemoryOrStorage};
ghost use Rattle.broker_types.specs.Text.{Text};
ghost use Rattle.records.specs.Calls.{IsReading};
ghost use Rattle.records.specs.Children.{child, children, keys_under, AreNames, below, is_text, past};
ghost use Rattle.records.specs.Children.{push_once, push_each};
ghost use Rattle.records.specs.Transaction.{IsHonest};

use crate::entry::Entry;
use crate::kind::Kind;
use crate::tx::RecordsTx;
use broker_types::{Fault, TextBuf};
use std::alloc::{AllocError, Global};

/// How many rows are asked for at once.
const PAGE: u32 = 16;

/// The first part of a path: a folder with its slash, or the whole path if it has no slash.
fn child_of(alloc: Global, path: &str) -> Result<String, AllocError>
    ensures { IfOk result (λ text. string_bytes text ≡ child path.now) }
{
    match path.split_once('/') {
        None => String::from_str(alloc, path),
        Some((front, _)) => {
            let mut text = String::from_str(alloc, front)?;
            text.push_str("/")?;
            Ok(text)
        }
    }
}

/// Whether a text is the last of texts.
fn is_last(texts: &[TextBuf], text: &str) -> bool
    ensures { result ≡ is_text text.now (slice_get texts.now (length texts.now - 1)) }
{
    match texts.last() {
        Some(last) => last.as_str() == text,
        None => false,
    }
}

/// Adds a text to texts, unless it is the last of them.
fn push_once(texts: &mut Vec<TextBuf>, text: String) -> Result<(), AllocError>
    ensures { OnOk result (texts.new.items ≡ push_once texts.old.items (string_bytes text)) }
{
    if is_last(texts, text.as_str()) {
        return Ok(());
    }
    texts.push(TextBuf::new(text))?;
    Ok(())
}

/// Adds the child that a key belongs to, if the key begins with the prefix.
fn push_child(
    alloc: Global,
    names: &mut Vec<TextBuf>,
    key: &str,
    prefix: &str,
) -> Result<(), AllocError>
    ensures { OnOk result (names.new.items ≡ push_each names.old.items (map child (below prefix.now (key.now ∷ [])))) }
{
    if let Some(rest) = key.strip_prefix(prefix) {
        let name = child_of(alloc, rest)?;
        push_once(names, name)?;
    }
    Ok(())
}

/// Adds the children that the keys of rows belong to, if they begin with the prefix.
fn push_children(
    alloc: Global,
    names: &mut Vec<TextBuf>,
    listed: &[Entry],
    prefix: &str,
) -> Result<(), AllocError>
    ensures { OnOk result (names.new.items
        ≡ push_each names.old.items (map child (below prefix.now (map (λ e. e.0.1) listed.now)))) }
{
    for entry in listed {
        push_child(alloc, names, entry.key.as_str(), prefix)?;
    }
    Ok(())
}

/// A text above all keys that belong to a child, and not above any other key that is above them. A folder
/// ends in a slash, which `0` follows.
fn past_child(alloc: Global, prefix: &str, name: &str) -> Result<String, AllocError>
    ensures { IfOk result (λ text. string_bytes text ≡ prefix.now ++ past name.now) }
{
    let mut text = String::from_str(alloc, prefix)?;
    match name.split_once('/') {
        None => {
            text.push_str(name)?;
            text.push_str("\0")?;
            Ok(text)
        }
        Some((front, _)) => {
            text.push_str(front)?;
            text.push_str("0")?;
            Ok(text)
        }
    }
}

/// A text above all keys that belong to the last of the children, as `past_child` says.
fn past_last(alloc: Global, prefix: &str, names: &[TextBuf]) -> Result<String, AllocError>
    ensures { (name : Text) → slice_get names.now (length names.now - 1) ≡ Some name
        → IfOk result (λ text. string_bytes text ≡ prefix.now ++ past name) }
{
    match names.last() {
        None => String::from_str(alloc, prefix),
        Some(name) => past_child(alloc, prefix, name.as_str()),
    }
}

/// The immediate children of a folder, in the order of their bytes, each once: names, and folders with a
/// slash at their ends. They are those of the keys that begin with the prefix. Of a folder among them not
/// all rows are read: the walk goes on behind it. It fails only if memory runs out or the storage fails
/// (Vault's documentation, "KV secrets engine - version 2" and "Cubbyhole secrets engine", list secrets).
pub fn list_children<T: RecordsTx>(
    alloc: Global,
    tx: &mut T,
    kind: Kind,
    prefix: &str,
) -> Result<Vec<TextBuf>, Fault>
    ensures set { IsHonest (T.seen tx.new) → IfOk result (λ names. names.items
        ≡ children prefix.now (keys_under (T.seen tx.old).rows kind prefix.now)) }
    ensures named { IsHonest (T.seen tx.new) → (outer folder : Text) (paths : List Text)
        → prefix.now ≡ outer ++ folder → AreNames (T.seen tx.old).rows kind outer paths
        → IfOk result (λ names. names.items ≡ children folder paths) }
    ensures call { IsReading (T.seen tx.old) (T.seen tx.new) result IsMemoryOrStorage }
{
    let mut names = Vec::new(alloc);
    let mut from = String::new(alloc);
    for _ in 0..u32::MAX {
        let page = tx.under_from(kind, prefix, from.as_str(), PAGE)?;
        push_children(alloc, &mut names, &page, prefix)?;
        if page.len() < PAGE as usize {
            return Ok(names);
        }
        from = past_last(alloc, prefix, &names)?;
    }
    Err(Fault::Memory)
}
