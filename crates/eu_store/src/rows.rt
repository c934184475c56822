//! What a table holds, gathered and sorted.
ghost use Rattle.std.specs.Prelude.{◌≡◌, map, IfOk};
ghost use Rattle.std.specs.FinMap as map;
ghost use Rattle.std.specs.Map.Iter.{deref_pair};
ghost use Rattle.std.specs.Option.{option_copied};
ghost use Rattle.eu_store.specs.Stored.{listing_of, rows_of};
ghost use Rattle.eu_model.specs.View.{is_of};

use crate::HeldLease;
use crate::table::Table;
use eu_base::{App, Key};
use eu_model::Listed;
use std::alloc::{AllocError, Global};

/// What is held of an application, or everything where none is given, in key order, with the keys and not copied. `AllocError` where no
/// memory is left.
pub(crate) fn rows<'a>(
    alloc: Global,
    table: &'a Table,
    app: Option<&App>,
) -> Result<Vec<(&'a Key, &'a HeldLease)>, AllocError>
    ensures { IfOk result (λ rows. map deref_pair rows.items ≡ rows_of (option_copied app.entry) (map.from_entries table.now.entries)) }
{
    let mut rows = Vec::new(alloc);
    for (key, held) in table.iter() {
        if is_of(key, app) {
            rows.push((key, held))?;
        }
    }
    rows.sort_by_key(|row| row.0)?;
    Ok(rows)
}

/// The same, copied, without the keys. `AllocError` where no memory is left.
pub(crate) fn listed_rows(
    alloc: Global,
    table: &Table,
    app: Option<&App>,
) -> Result<Vec<Listed>, AllocError>
    ensures { IfOk result (λ leases. leases.items ≡ listing_of (option_copied app.entry) (map.from_entries table.now.entries)) }
{
    let rows = rows(alloc, table, app)?;
    let mut leases = Vec::with_capacity(alloc, rows.len())?;
    for row in &rows {
        leases.push(row.1.listed()?)?;
    }
    Ok(leases)
}

/// Whether a key is of that application. Each is, where none is given.
fn is_of(key: &Key, app: Option<&App>) -> bool
    ensures { result ≡ is_of (option_copied app.entry) key.now }
{
    match app {
        Some(app) => key.app == *app,
        None => true,
    }
}
