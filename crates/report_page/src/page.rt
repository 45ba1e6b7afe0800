//! The page around a document.

ghost use Rattle.std.specs.Prelude.{◌≡◌, ◌++◌, OnOk};
ghost use Rattle.report_page.specs.Pages.{page_of, tail};

use crate::head::HEAD;
use crate::tail::TAIL;
use crate::tail_rest::TAIL_REST;
use machine_data::OutOfMemory;
use writing::Text;

/// Appends the page that shows a document of loops or of problems: an HTML page that needs no
/// server and no network. No byte of the document may be `<`: it stands in an element of the page.
///
/// # Errors
/// Memory ran out. The text is left with a part of the page.
pub fn push_page(text: &mut Vec<u8>, document: &[u8]) -> Result<(), OutOfMemory>
    ensures ok { OnOk result (text.new.items ≡ text.old.items ++ page_of document.now) }
{
    text.push_piece(HEAD)?;
    text.extend_from_slice(document)?;
    push_tail(text)
}

/// Appends what stands after a document. It is kept in two pieces.
fn push_tail(text: &mut Vec<u8>) -> Result<(), OutOfMemory>
    ensures ok { OnOk result (text.new.items ≡ text.old.items ++ tail) }
{
    text.push_piece(TAIL)?;
    text.push_piece(TAIL_REST)
}
