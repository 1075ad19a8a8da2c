//! The parts of a module that can be run, and the room that a run needs.
ghost use Rattle.std.specs.Prelude.{◌≡◌, ℕ, ◌<◌, length, IsTrue, slice_get, Some};
ghost use Rattle.specify_blocks.specs.Sound.{IsSound};
ghost use Rattle.module_runs.specs.Wiring.{net_count, is_joined, is_wired};

use specify_blocks::{Instance, VModule};

/// The instance with this number.
pub(crate) fn instance_at(model: &VModule, i: usize) -> &Instance
    requires { i < length model.now.instances }
    ensures is { slice_get model.now.instances i ≡ Some result.now }
    ensures joined { (room : ℕ) → IsTrue (is_wired room model.now) → IsTrue (is_joined model.now.udps room result.now) }
{
    &model.instances.as_slice()[i]
}

/// The most nets that feed one instance. With room for so many values a sound module can be run.
pub(crate) fn most_nets(model: &VModule) -> usize
    requires { IsSound model.now }
    ensures { IsTrue (is_wired result model.now) }
{
    let mut most = 0;
    for instance in model.instances.as_slice() {
        most = most.max(net_count(instance));
    }
    most
}

/// How many nets feed an instance.
fn net_count(instance: &Instance) -> usize
    ensures { result ≡ net_count instance.now }
{
    match instance {
        Instance::Primitive { inputs, .. } => inputs.len(),
        Instance::Constant { .. } => 0,
    }
}
