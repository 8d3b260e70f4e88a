//! The parts of May elements that operations use.
ghost use Rattle.std.specs.Prelude.{IsTrue, OnOk};
ghost use Rattle.fp_field.specs.Served.{served};
ghost use Rattle.linear_law.specs.Names.{Each};
ghost use Rattle.term_total.specs.Names.{AreReady, CanBeMade, IsReady, IsThere, Keeps};

use crate::plan::{Addend, Applied, Row};
use may_elements::MayTable;
use std::alloc::AllocError;

/// Stores what operations use.
fn store_operations<const P: u32>(
    table: &mut MayTable<P>,
    operations: &[Applied],
) -> Result<(), AllocError>
    requires prime { IsTrue (served P) }
    requires made { Each (IsReady P (λ d q. CanBeMade P d)) operations.now }
    ensures stored { OnOk result (Each (IsReady P (IsThere table.new)) operations.now) }
    ensures kept { OnOk result (Keeps table.old table.new) }
{
    for operation in operations {
        table.store(operation.element, operation.degree)?;
    }
    Ok(())
}

/// Stores what the operations of addends use.
fn store_addends<const P: u32>(
    table: &mut MayTable<P>,
    addends: &[Addend],
) -> Result<(), AllocError>
    requires prime { IsTrue (served P) }
    requires made { Each (λ (y : Addend). Each (IsReady P (λ d q. CanBeMade P d)) y.operations) addends.now }
    ensures stored { OnOk result (Each (λ (y : Addend). Each (IsReady P (IsThere table.new)) y.operations) addends.now) }
    ensures kept { OnOk result (Keeps table.old table.new) }
{
    for addend in addends {
        store_operations(table, addend.operations.as_slice())?;
    }
    Ok(())
}

/// Stores what the operations of rows use.
pub(crate) fn store_rows<const P: u32>(
    table: &mut MayTable<P>,
    rows: &[Row],
) -> Result<(), AllocError>
    requires prime { IsTrue (served P) }
    requires made { Each (AreReady P (λ d q. CanBeMade P d)) rows.now }
    ensures stored { OnOk result (Each (AreReady P (IsThere table.new)) rows.now) }
    ensures kept { OnOk result (Keeps table.old table.new) }
{
    for row in rows {
        store_addends(table, row.addends.as_slice())?;
    }
    Ok(())
}
