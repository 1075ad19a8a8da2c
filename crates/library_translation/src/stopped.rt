//! How the run stops where a write failed.
ghost use Rattle.std.specs.Prelude.{◌≡◌};
ghost use Rattle.std.specs.Result.{result_map_both};
ghost use Rattle.text_io.specs.declared.stop.Stop.TheVariants.{Failed as WasFailed};

use text_io::{Failed, Stop};

/// What a write comes to, as the run stops by it.
pub(crate) fn stopped(written: Result<(), Failed>) -> Result<(), Stop>
    ensures { result ≡ result_map_both (λ done. done) (λ failed. WasFailed) written }
{
    match written {
        Ok(()) => Ok(()),
        Err(_) => Err(Stop::Failed),
    }
}
