//! The two lines of a column.
ghost use Rattle.std.specs.Prelude.{◌≡◌, ◌+◌, ◌<◌, ◌^◌, Ok, Err, if◌then◌else◌};
ghost use Rattle.certificate_walk.specs.declared.stop.Stop.TheVariants.{Fails};

use certificate_walk::{Stop, ask};

/// The walk of a line that is asked and of the chain under it, of which nothing is asked.
pub(crate) fn ask_column(is_right: bool, before: u64) -> Result<u64, Stop>
    requires { before + 2 < 2 ^ 64 }
    ensures { result ≡ (if is_right then Ok (before + 2) else Err (Fails (before + 1))) }
{
    Ok(ask(is_right, before)? + 1)
}
