//! The model of a text that tells one.

ghost use Rattle.std.specs.Prelude.{◌≡◌, [], ◌∷◌, length, IfOk, IfErr, IsOkAnd};
ghost use Rattle.udp_tables.specs.declared.models.ModelFault.TheVariants.{Memory};

use std::alloc::AllocError;
use udp_tables::ModelFault;

/// The model of a text that tells one, which was read so. `AllocError` comes only where memory is wanting.
pub(crate) fn one_model<T: Drop>(read: Result<Vec<T>, ModelFault>) -> Result<T, AllocError>
    requires one { IfOk read (λ models. length models.items ≡ 1) }
    requires whole { IfErr read (λ fault. fault ≡ Memory) }
    ensures { IfOk result (λ model. IsOkAnd read (λ models. models.items ≡ model ∷ [])) }
{
    match read {
        Ok(mut models) => match models.pop() {
            Some(model) => Ok(model),
            None => unreachable!(),
        },
        Err(ModelFault::Memory) => Err(AllocError),
        Err(_) => unreachable!(),
    }
}
