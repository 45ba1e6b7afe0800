//! The first offsets at which words that are sought stand, from the end of a text on to its start.

ghost use Rattle.std.specs.Prelude.{◌≡◌, ℕ, ◌+◌, ◌<◌, ◌≤◌, ◌^◌, ◌&&◌, not, drop, false, get_or, length, take, true, IfOk, IfSome};
ghost use Rattle.machine_lint.specs.Places.{place_at};
ghost use Rattle.machine_lint.specs.Words.{bare_before, comment_after, leads_on};
ghost use Rattle.machine_lint.specs.inner.Sought.{AreLeads, AreLinks, AreNext, Ascends, begins, none, nth, stepped, texts};

use crate::search::{bare_at, bare_before};
use crate::sought::words::{descend, last_up_to};

/// What is known of a word from an offset on: where it stands first as a key does, and where at all.
#[derive(Clone, Copy)]
pub(crate) struct Next {
    pub(crate) key: Option<usize>,
    pub(crate) word: Option<usize>,
}

/// An offset of a text, and whether a comment has begun before it.
#[derive(Clone, Copy)]
pub(crate) struct Here<'a> {
    pub(crate) text: &'a [u8],
    /// For each offset whether the text from there on leads on as after a key.
    pub(crate) leads: &'a [bool],
    pub(crate) at: usize,
    pub(crate) begun: bool,
}

/// Whether a text leads on as after a key from an offset on, for a word that stands here in no comment.
fn leads_here(here: Here<'_>, end: usize) -> bool
    requires inside { end ≤ length here.text.now }
    requires leads { AreLeads here.text.now here.leads.now }
    requires all { length here.leads.now ≡ length here.text.now + 1 }
    ensures { result ≡ (leads_on (drop end here.entry.text.now) && not here.entry.begun) }
{
    here.leads[end] && !here.begun
}

/// What is known of a word that comes first here.
fn noted(here: Here<'_>, word: &[u8], next: Next) -> Next
    requires inside { here.at < length here.text.now }
    requires short { length here.text.now < 2 ^ 32 }
    requires leads { AreLeads here.text.now here.leads.now }
    requires all { length here.leads.now ≡ length here.text.now + 1 }
    requires begun { here.begun ≡ comment_after false (take here.at here.text.now) }
    requires first { begins word.now (drop here.at here.text.now) ≡ true }
    requires clear { bare_before here.text.now here.at ≡ false }
    ensures { result ≡ stepped here.entry.text.now word.now here.entry.at next }
{
    let end = here.at + word.len();
    if bare_at(here.text, end) {
        return next;
    }
    let key = if leads_here(here, end) {
        Some(here.at)
    } else {
        next.key
    };
    Next {
        key,
        word: Some(here.at),
    }
}

/// Puts down which words stand here.
pub(crate) fn step(words: &[&[u8]], links: &[Option<usize>], nexts: &mut [Next], here: Here<'_>)
    requires ascends { Ascends (texts words.now) }
    requires links { AreLinks (texts words.now) links.now }
    requires linked { length links.now ≡ length words.now }
    requires known { length nexts.now ≡ length words.now }
    requires inside { here.at < length here.text.now }
    requires short { length here.text.now < 2 ^ 32 }
    requires leads { AreLeads here.text.now here.leads.now }
    requires all { length here.leads.now ≡ length here.text.now + 1 }
    requires begun { here.begun ≡ comment_after false (take here.at here.text.now) }
    ensures known { length nexts.new ≡ length nexts.old }
    ensures each { (j : ℕ) → j < length words.now → get_or nexts.new j none ≡ stepped here.entry.text.now (nth (texts words.now) j) here.entry.at (get_or nexts.old j none) }
{
    if bare_before(here.text, here.at) {
        return;
    }
    let rest = &here.text[here.at..];
    let mut now = descend(words, links, last_up_to(words, rest), rest);
    while let Some(number) = now {
        nexts[number] = noted(here, words[number], nexts[number]);
        now = links[number];
    }
}
