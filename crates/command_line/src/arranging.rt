//! Command lines as people write them, put as `clap` reads them.

ghost use Rattle.std.specs.Prelude.{◌≡◌, ◌++◌, IfOk, OnOk, codes, map, string_bytes, fold};
ghost use Rattle.command_line.specs.Arranging.{arranged, command_words, dashed, has_one_dash, is_group, is_option};
ghost use Rattle.command_line.specs.Arranging.{is_valued, joined, line_placed, nothing_placed, option_name, paired};
ghost use Rattle.command_line.specs.Arranging.{place, place_word, placed_of};

use std::alloc::{AllocError, Global};

/// The words of a command line, the first of which is the name of the program, as `clap` reads them: the options of
/// the client first, wherever they stood before a word `--`, and with two dashes where they had one; then the other
/// words, of which a command of two words is one. An option at the end that lacks its value is the last word. The only
/// error is running out of memory.
#[tactic(auto, unfolding(crate::specs::Arranging::arranged))]
pub fn arranged(alloc: Global, words: &[String]) -> Result<Vec<String>, AllocError>
    ensures { IfOk result (λ v. map string_bytes v.items ≡ arranged (map string_bytes words.now)) }
{
    let Some((program, words)) = words.split_first() else {
        return Ok(Vec::new(alloc));
    };
    let placing = placed(alloc, words)?;
    let mut line = Vec::new(alloc);
    line.push(program.clone()?)?;
    placing.push_on(alloc, &mut line)?;
    Ok(line)
}

/// The words of a command line but the options of the client and the name of the program; a command of two words is
/// one. The only error is running out of memory.
pub(crate) fn command_words(alloc: Global, words: &[String]) -> Result<Vec<String>, AllocError>
    ensures { IfOk result (λ v. map string_bytes v.items ≡ command_words (map string_bytes words.now)) }
{
    let Some((_, words)) = words.split_first() else {
        return Ok(Vec::new(alloc));
    };
    let placing = placed(alloc, words)?;
    joined(alloc, placing.others.as_slice())
}

/// The words, where a command of two words becomes one, also after `help`.
fn joined(alloc: Global, words: &[String]) -> Result<Vec<String>, AllocError>
    ensures { IfOk result (λ v. map string_bytes v.items ≡ joined (map string_bytes words.now)) }
{
    let mut command = Vec::new(alloc);
    push_joined(alloc, &mut command, words)?;
    Ok(command)
}

/// The words so far: the options of the client with their values, and the others.
#[derive(Drop)]
struct Placing {
    options: Vec<String>,
    others: Vec<String>,
    /// Whether the last word was an option that waits for its value.
    waits: bool,
    /// Whether a word `--` ended the options.
    ended: bool,
}

/// Each word in its place.
fn placed(alloc: Global, words: &[String]) -> Result<Placing, AllocError>
    ensures { IfOk result (λ p. placed_of p ≡ fold place nothing_placed (map string_bytes words.now)) }
{
    let mut placing = Placing {
        options: Vec::new(alloc),
        others: Vec::new(alloc),
        waits: false,
        ended: false,
    };
    placing.place_all(alloc, words)?;
    Ok(placing)
}

impl Placing {
    /// Puts words in their places.
    fn place_all(&mut self, alloc: Global, words: &[String]) -> Result<(), AllocError>
        ensures { OnOk result (placed_of self.new ≡ fold place (placed_of self.old) (map string_bytes words.now)) }
    {
        for word in words {
            self.place(alloc, word.as_str())?;
        }
        Ok(())
    }

    /// Adds the options at the end of a line, and then the other words, where a command of two words becomes one; these
    /// not if the last option waits for its value.
    fn push_on(&self, alloc: Global, line: &mut Vec<String>) -> Result<(), AllocError>
        ensures { OnOk result (map string_bytes line.new.items
            ≡ map string_bytes line.old.items ++ line_placed (placed_of self.now)) }
    {
        push_all(alloc, line, self.options.as_slice())?;
        if self.waits {
            return Ok(());
        }
        push_joined(alloc, line, self.others.as_slice())
    }

    /// Puts a word in its place.
    fn place(&mut self, alloc: Global, word: &str) -> Result<(), AllocError>
        ensures { OnOk result (placed_of self.new ≡ place (placed_of self.old) word.now) }
    {
        if self.waits {
            self.waits = false;
            self.options.push(String::from_str(alloc, word)?)?;
            return Ok(());
        }
        if self.ended {
            self.others.push(String::from_str(alloc, word)?)?;
            return Ok(());
        }
        if word == "--" {
            self.ended = true;
            self.others.push(String::from_str(alloc, word)?)?;
            return Ok(());
        }
        self.place_word(dashed(alloc, word)?)
    }

    /// Puts a word that is no value in its place.
    fn place_word(&mut self, word: String) -> Result<(), AllocError>
        ensures { OnOk result (placed_of self.new ≡ place_word (string_bytes word) (placed_of self.old)) }
    {
        if is_option(word.as_str()) {
            self.waits = is_valued(word.as_str());
            self.options.push(word)?;
        } else {
            self.others.push(word)?;
        }
        Ok(())
    }
}

/// The word, with two dashes if it is an option with one.
fn dashed(alloc: Global, word: &str) -> Result<String, AllocError>
    ensures { IfOk result (λ text. string_bytes text ≡ dashed word.now) }
{
    let mut text = String::new(alloc);
    if has_one_dash(word.as_bytes()) {
        text.push_str("-")?;
    }
    text.push_str(word)?;
    Ok(text)
}

/// Whether the word is a dash, a lower-case letter, and something more.
fn has_one_dash(word: &[u8]) -> bool
    ensures { result ≡ has_one_dash word.now }
{
    word.len() > 2 && word[0] == b'-' && word[1].is_ascii_lowercase()
}

/// Whether the word is an option of the client, alone or with its value after `=`.
fn is_option(word: &str) -> bool
    ensures { result ≡ is_option word.now }
{
    is_valued(option_name(word)) || word == "--exit-codes"
}

/// What is before the first `=`.
fn option_name<'a>(word: &'a str) -> &'a str
    ensures { result.now ≡ option_name word.now }
{
    match word.split_once('=') {
        Some((name, _)) => name,
        None => word,
    }
}

/// Whether the word is an option of the client that is followed by its value.
fn is_valued(word: &str) -> bool
    ensures { result ≡ is_valued word.now }
{
    word == "--addr"
        || word == "--token"
        || word == "--wrap-ttl"
        || word == "--field"
        || word == "--token-file"
        || word == "--wait"
        || word == "--timeout"
}

/// Adds words at the end, where a command of two words becomes one, also after `help`.
fn push_joined(alloc: Global, line: &mut Vec<String>, words: &[String]) -> Result<(), AllocError>
    ensures { OnOk result (map string_bytes line.new.items
        ≡ map string_bytes line.old.items ++ joined (map string_bytes words.now)) }
{
    match words.split_first() {
        Some((word, rest)) if word.as_str() == "help" => {
            line.push(word.clone()?)?;
            push_paired(alloc, line, rest)
        }
        _ => push_paired(alloc, line, words),
    }
}

/// Adds words at the end, where a command of two words becomes one.
fn push_paired(alloc: Global, line: &mut Vec<String>, words: &[String]) -> Result<(), AllocError>
    ensures { OnOk result (map string_bytes line.new.items
        ≡ map string_bytes line.old.items ++ paired (map string_bytes words.now)) }
{
    if words.len() > 1 && is_group(words[0].as_str()) && !words[1].starts_with('-') {
        line.push(pair(alloc, words[0].as_str(), words[1].as_str())?)?;
        return push_all(alloc, line, &words[2..]);
    }
    push_all(alloc, line, words)
}

/// Two words as one.
fn pair(alloc: Global, group: &str, word: &str) -> Result<String, AllocError>
    ensures { IfOk result (λ text. string_bytes text ≡ group.now ++ codes " " ++ word.now) }
{
    let mut text = String::from_str(alloc, group)?;
    text.push_str(" ")?;
    text.push_str(word)?;
    Ok(text)
}

/// Whether the word is the first of commands of two words.
fn is_group(word: &str) -> bool
    ensures { result ≡ is_group word.now }
{
    word == "kv" || word == "token" || word == "policy" || word == "lease"
}

/// Adds words at the end.
fn push_all(alloc: Global, line: &mut Vec<String>, words: &[String]) -> Result<(), AllocError>
    ensures { OnOk result (map string_bytes line.new.items
        ≡ map string_bytes line.old.items ++ map string_bytes words.now) }
{
    let mut copies = copies(words, alloc)?;
    line.append(&mut copies)?;
    Ok(())
}

fn copies(words: &[String], alloc: Global) -> Result<Vec<String>, AllocError>
    ensures { IfOk result (λ v. map string_bytes v.items ≡ map string_bytes words.now) }
{
    let mut copies = Vec::new(alloc);
    for word in words {
        copies.push(String::from_str(alloc, word.as_str())?)?;
    }
    Ok(copies)
}
