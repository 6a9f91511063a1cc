//! The words of `log`: files, each with the link whose packets it has, and which of them.

ghost use Rattle.std.specs.Prelude.{◌≡◌, ◌≢◌, ◌↔◌, List, [], ℕ, IfSome, IsSomeAnd, IsTrue, MatchOption, codes, map};
ghost use Rattle.rip_wire.specs.Name.{IsName};
ghost use Rattle.rip_report.specs.Selections.{Part};
ghost use Rattle.ripaudit.specs.CaptureWords.{AreFineWords, IsCaptureWord, IsFileName, IsFirstBadWord, IsPartText, IsStem, part_in};
ghost use Rattle.ripaudit.specs.SelectionTexts.{selection_in};

use crate::selections::{NamedSelection, named_selection};
use rip_report::{FilePart, Selection};
use rip_wire::is_name;

/// A capture file, and the part of it that is a link's.
#[derive(Drop)]
pub(crate) struct CaptureWord<'a> {
    /// The name of the link.
    pub(crate) link: &'a str,
    /// Which packets are its own.
    pub(crate) selection: NamedSelection<'a>,
    /// The name of the file, `-` for standard input.
    pub(crate) path: &'a str,
}

impl CaptureWord<'_> {
    ghost use Rattle.rip_report.specs.Selections.{part_of};
    ghost use Rattle.ripaudit.specs.CaptureWords.{part_in};

    /// The part of the file that is the link's.
    pub(crate) fn part(&self) -> FilePart<'_>
        ensures { part_of result ≡ part_in self.now }
    {
        FilePart {
            link: self.link,
            selection: Selection {
                interface: self.selection.interface.as_bytes(),
                vlans: self.selection.vlans.as_slice(),
            },
        }
    }

    /// Whether the file is standard input.
    pub(crate) fn is_input(&self) -> bool
        ensures { IsTrue result ↔ (self.now.path.now ≡ codes "-") }
    {
        self.path == "-"
    }
}

/// The name of a file without its folders.
fn file_name(path: &str) -> &str
    ensures { IsFileName path.now result.now }
{
    match path.rsplit_once('/') {
        Some((_, name)) => name,
        None => path,
    }
}

/// A file name without its last extension, where something stands before that.
fn stem(name: &str) -> &str
    ensures { IsStem name.now result.now }
{
    match name.rsplit_once('.') {
        Some((stem, _)) if !stem.is_empty() => stem,
        _ => name,
    }
}

/// The part of a file that is a link's, unless the name of the file is empty, or that of the link
/// is none.
fn part_of_file<'a>(
    link: &'a str,
    selection: NamedSelection<'a>,
    path: &'a str,
) -> Option<CaptureWord<'a>>
    ensures named { IfSome result (λ w.
        (part_in w ≡ record { link = link.now; selection = selection_in selection.entry })
        × (w.path.now ≡ path.now) × IsName link.now × (path.now ≢ [])) }
    ensures found { IsName link.now → path.now ≢ [] → IsSomeAnd result (λ w.
        (part_in w ≡ record { link = link.now; selection = selection_in selection.entry })
        × (w.path.now ≡ path.now)) }
{
    if path.is_empty() || !is_name(link.as_bytes()) {
        return None;
    }
    Some(CaptureWord {
        link,
        selection,
        path,
    })
}

/// What a word `LINK=FILE` or `LINK@WHICH=FILE` names, by what stands on both sides.
fn named_part<'a>(text: &'a str, path: &'a str) -> Option<CaptureWord<'a>>
    ensures named { IfSome result (λ w. IsPartText text.now (part_in w)
        × IsName w.link.now × (w.path.now ≡ path.now) × (path.now ≢ [])) }
    ensures found { (part : Part) → IsPartText text.now part → path.now ≢ [] →
        IsSomeAnd result (λ w. (part_in w ≡ part) × (w.path.now ≡ path.now)) }
{
    match text.split_once('@') {
        Some((link, which)) => part_of_file(link, named_selection(which)?, path),
        None => part_of_file(text, NamedSelection::nothing(), path),
    }
}

/// What a word `LINK=FILE` or `LINK@WHICH=FILE` names, or a word FILE, whose link is its name
/// without its folders and its last extension.
pub(crate) fn capture_word(word: &str) -> Option<CaptureWord<'_>>
    ensures named { IfSome result (λ w. IsCaptureWord word.now (part_in w) w.path.now) }
    ensures link { IfSome result (λ w. IsName w.link.now) }
    ensures found { (part : Part) (path : List ℕ) → IsCaptureWord word.now part path →
        IsSomeAnd result (λ w. (part_in w ≡ part) × (w.path.now ≡ path)) }
{
    match word.split_once('=') {
        Some((text, path)) => named_part(text, path),
        None => match word {
            "-" => None,
            _ => part_of_file(stem(file_name(word)), NamedSelection::nothing(), word),
        },
    }
}

/// The number of the first word that names no file and link, or standard input where one before it
/// does.
pub(crate) fn first_bad_word(words: &[&str]) -> Option<usize>
    ensures { MatchOption result (AreFineWords (map (λ w. w.now) words.now))
        (IsFirstBadWord (map (λ w. w.now) words.now)) }
{
    let mut takes_input = false;
    for i in 0..words.len() {
        let Some(word) = capture_word(words[i]) else {
            return Some(i);
        };
        if word.is_input() {
            if takes_input {
                return Some(i);
            }
            takes_input = true;
        }
    }
    None
}
