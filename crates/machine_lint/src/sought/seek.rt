//! The keys of a tree, sought in its text all at once.

ghost use Rattle.std.specs.Prelude.{◌≡◌, ◌+◌, ◌<◌, ◌^◌, length, OnOk};

use crate::index::Indexed;
use crate::sought::answers::Asked;
use crate::tree::{look_up, table_in};
use machine::OutOfMemory;
use std::alloc::Global;
use toml::Table;

/// Asks for the keys of a table from an offset on.
fn ask_keys<'a>(
    asked: &mut Vec<Asked<'a>>,
    table: &'a Table,
    from: usize,
) -> Result<(), OutOfMemory> {
    for (name, _) in table {
        asked.push(Asked {
            word: name.as_bytes(),
            from,
        })?;
    }
    Ok(())
}

/// Asks for the keys in each of the tables.
fn ask_inner_keys<'a>(
    asked: &mut Vec<Asked<'a>>,
    text: &Indexed<'a>,
    tables: &'a Table,
) -> Result<(), OutOfMemory>
    requires short { length text.now < 2 ^ 32 }
{
    for (name, value) in tables {
        let Some(keys) = value.as_table() else {
            continue;
        };
        if let Some(mark) = text.find_table(name.as_str()) {
            ask_keys(asked, keys, mark.at + name.len())?;
        }
    }
    Ok(())
}

/// Finds where all that is asked stands, if it is more than it was.
fn seek_more<'a>(
    text: &mut Indexed<'a>,
    asked: &mut Vec<Asked<'a>>,
    before: usize,
) -> Result<(), OutOfMemory>
    requires short { length text.now < 2 ^ 32 }
    ensures { OnOk result (text.new ≡ text.old) }
{
    if asked.len() == before {
        return Ok(());
    }
    text.seek(asked)
}

/// Finds where the keys of the tables stand, and then those in each table.
fn seek_tables<'a>(
    text: &mut Indexed<'a>,
    asked: &mut Vec<Asked<'a>>,
    tables: &'a Table,
) -> Result<(), OutOfMemory>
    requires short { length text.now < 2 ^ 32 }
    ensures { OnOk result (text.new ≡ text.old) }
{
    if let Some(mark) = text.find_key("ops", 0) {
        ask_keys(asked, tables, mark.at + 3)?;
    }
    seek_more(text, asked, 0)?;
    let before = asked.len();
    ask_inner_keys(asked, text, tables)?;
    seek_more(text, asked, before)
}

/// Finds where the keys of a tree stand.
pub(crate) fn seek_keys<'a>(
    alloc: Global,
    text: &mut Indexed<'a>,
    tree: &'a Table,
) -> Result<(), OutOfMemory>
    requires short { length text.now < 2 ^ 32 }
    ensures { OnOk result (text.new ≡ text.old) }
{
    let mut asked = Vec::new(alloc);
    ask_keys(&mut asked, tree, 0)?;
    match table_in(look_up(tree, "ops")) {
        Some(tables) => seek_tables(text, &mut asked, tables),
        None => seek_more(text, &mut asked, 0),
    }
}
