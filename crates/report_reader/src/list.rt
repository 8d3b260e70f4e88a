//! Sections that repeat.
ghost use Rattle.std.specs.{Prelude.{◌≡◌, ◌≤◌, ◌++◌, ◌∷◌, ℕ, [], List, OnOk, length}, declared.option.Option.Option};
ghost use Rattle.report_text_law.specs.declared.{line.Line.{Line as LineSeen}, state.State.State};
ghost use Rattle.report_reader.specs.Names.{Reads, ReadsItem, Shrinks, left};

use crate::ReadRefused;
use crate::reader::Reader;
use comch_io::Listed;
use std::alloc::{AllocError, Global};

// Adds an item at the end of a list.
fn add<T: Drop>(list: &mut Listed<T>, item: T) -> Result<(), AllocError>
    ensures { OnOk result (list.new ≡ list.old ++ item ∷ []) }
{
    match list.push(item) {
        Ok(()) => Ok(()),
        Err(_) => Err(AllocError),
    }
}

/// The items that stand next, each read by a call that is told how many stand before it.
pub fn listed<T: Drop, F: Fn(&mut Reader<'_>, usize) -> Result<Option<T>, ReadRefused>>(
    alloc: Global,
    reader: &mut Reader<'_>,
    item: F,
) -> Result<Listed<T>, ReadRefused>
    requires callable { F.IsAlwaysCallable item }
    requires shrinks { (x : _) (n : ℕ) (r : _) (y : _) → F.post item x n r y → Shrinks x.now y.now r }
    ensures reads { (within behind : List T → LineSeen → Option State) → ((x : _) (xs : List T) (n : ℕ) (r : _) (y : _) → n ≡ length xs → F.post item x n r y → ReadsItem within behind xs x.now y.now r) → Reads (within []) behind reader.old reader.new result }
    ensures less { OnOk result (left reader.new ≤ left reader.old) }
{
    let mut found = Listed::new(alloc);
    while let Some(next) = item(reader, found.len())? {
        add(&mut found, next)?;
    }
    Ok(found)
}
