ghost use Rattle.std.specs.Prelude.{◌≡◌, ◌≢◌, ◌↔◌, IsTrue, IfOk, All, AllPairs};
ghost use Rattle.command.specs.Files.{file_words, IsFileName, AreFiles};
ghost use Rattle.command.specs.Words.{texts};

use crate::options::is_option;
use jf_base::{List, Memory, Text};
use std::alloc::Global;

/// The words that name files, in order.
pub fn file_words(alloc: Global, words: &[String]) -> Result<List<Text>, Memory>
    ensures { IfOk result (λ files. files ≡ file_words (texts words.now)) }
{
    let mut files = List::from_vec(Vec::new(alloc));
    for word in words {
        if !is_option(word.as_bytes()) {
            files.push(Text::from_text(alloc, word.as_str())?)?;
        }
    }
    Ok(files)
}

fn is_file_name(name: &[u8]) -> bool
    ensures { IsTrue result ↔ IsFileName name.now }
{
    if name.is_empty() || name.len() > 255 {
        return false;
    }
    name.ends_with(b".f90") || name.ends_with(b".c")
}

fn are_file_names(names: &[Text]) -> bool
    ensures { IsTrue result ↔ All IsFileName names.now }
{
    names
        .iter()
        .all(|name| is_file_name(name.as_str().as_bytes()))
}

fn are_different(names: &[Text]) -> bool
    ensures { IsTrue result ↔ AllPairs (λ one other. one ≢ other) names.now }
{
    for (i, name) in names.iter().enumerate() {
        if names[..i].contains(name) {
            return false;
        }
    }
    true
}

/// Whether these are 1 to 64 different names of files.
pub fn are_files(names: &[Text]) -> bool
    ensures { IsTrue result ↔ AreFiles names.now }
{
    if names.is_empty() || names.len() > 64 {
        return false;
    }
    are_file_names(names) && are_different(names)
}
