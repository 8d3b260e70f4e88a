//! The columns of operation blocks and of induced blocks.
ghost use Rattle.std.specs.Prelude.{◌≡◌, ◌↔◌, ◌<◌, ◌+◌, ◌*◌, ◌^◌, ℕ, length, IfOk, IsTrue, Ok, Err, if◌then◌else◌};
ghost use Rattle.report.specs.declared.columns.Column.{Column as ColumnPart};
ghost use Rattle.certificate_law.specs.Names.{Asks, IsColumnAt, Stated, numbered};
ghost use Rattle.certificate_walk.specs.{declared.stop.Stop.TheVariants.Fails, Names.IsWalk};
ghost use Rattle.count_check.specs.Columns.{AsksColumns, with_primitive};

use certificate_walk::{Stop, ask};
use report::Column;

/// The walk of a line and of the one under it, of which nothing is asked.
pub(crate) fn ask_first(is_as_asked: bool, before: u64) -> Result<u64, Stop>
    requires { before + 2 < 2 ^ 64 }
    ensures { result ≡ (if is_as_asked then Ok (before + 2) else Err (Fails (before + 1))) }
{
    Ok(ask(is_as_asked, before)? + 1)
}

/// Whether a column stands at a place of a matrix with so many columns and rows.
fn is_column(columns: u32, rows: u32, place: usize, column: &Column) -> bool
    ensures { IsTrue result ↔ IsColumnAt columns rows place column.now }
{
    place < columns as usize && column.values.len() == rows as usize
}

/// The walk of the columns of a matrix with so many columns and rows.
pub(crate) fn columns(listed: &[Column], columns: u32, rows: u32, before: u64) -> Result<u64, Stop>
    requires room { before + 2 * length listed.now < 2 ^ 64 }
    ensures lines { IfOk result (λ last. last ≡ before + 2 * length listed.now) }
    ensures walk { (p : ℕ) (line : ℕ → ColumnPart → Stated) → AsksColumns p line columns rows → IsWalk (Asks p 5) before (numbered (with_primitive line) 0 listed.now) result }
{
    let mut at = before;
    for (place, column) in listed.iter().enumerate() {
        at = ask_first(is_column(columns, rows, place, column), at)?;
    }
    Ok(at)
}
