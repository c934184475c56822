//! The hash code of the statuses.
ghost use Rattle.std.specs.Prelude.{◌≡◌, ◌++◌, IfOk, OnOk, string_bytes};
ghost use Rattle.eu_model.specs.View.{hash_of, hash_part};

use eu_base::Status;
use eu_model::StatusCounts;
use std::alloc::{AllocError, Global};

/// The hash code of leases of which so many have each status (`Applications.getReconcileHashCode` in Eureka): for each status that
/// occurs, in the order of the names' bytes, the name, `_`, how many instances have it, and `_`. Empty where no lease is held.
///
/// `AllocError` where no memory is left.
pub fn hash_code(alloc: Global, counts: &StatusCounts) -> Result<String, AllocError>
    ensures { IfOk result (λ code. string_bytes code ≡ hash_of counts.now) }
{
    let mut code = String::new(alloc);
    push_part(&mut code, Status::Down, counts.down)?;
    push_part(&mut code, Status::OutOfService, counts.out_of_service)?;
    push_part(&mut code, Status::Starting, counts.starting)?;
    push_part(&mut code, Status::Unknown, counts.unknown)?;
    push_part(&mut code, Status::Up, counts.up)?;
    Ok(code)
}

fn push_part(code: &mut String, status: Status, number: u64) -> Result<(), AllocError>
    ensures { OnOk result (string_bytes code.new ≡ string_bytes code.old ++ hash_part status number) }
{
    if number == 0 {
        return Ok(());
    }
    let name = status.name();
    write!(code, "{name}_{number}_")
}
