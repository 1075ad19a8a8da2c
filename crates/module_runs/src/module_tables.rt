//! A module with what is known of it.
ghost use Rattle.std.specs.Prelude.{◌≡◌, filter};
ghost use Rattle.model_traces.specs.NetValues.{driver};
ghost use Rattle.module_runs.specs.ModuleIndexed.{IsModuleIndex};
ghost use Rattle.module_runs.specs.OutputPaths.{leads_to};
ghost use Rattle.module_runs.specs.FedInstances.{fed_places};
ghost use Rattle.module_runs.specs.KeptValues.{state_places};
ghost use Rattle.model_traces.specs.declared.turns.Turned.TheVariants as turned;

use crate::module_index::ModuleIndex;
use crate::tables::Table;
use model_traces::Turned;
use row_masks::{RowMasks, masks_at};
use run_parts::Ports;
use specify_blocks::{VModule, VNet, VPath};
use sqlite_items::at;
use udp_tables::{RowKey, Udp};

/// A module with what is known of it: the keys of its tables, the numbers of its ports, the drivers of its nets, the paths to its
/// ports and the instances that changes feed.
#[derive(Clone, Copy)]
pub struct ModuleTables<'a> {
    /// The module.
    pub model: &'a VModule,
    /// What is known of it.
    pub index: &'a ModuleIndex,
    ghost indexed: { IsModuleIndex model.now index.now },
}

impl<'a> ModuleTables<'a> {
    ghost use Rattle.std.specs.Prelude.{slice_get, Some, length};
    ghost use Rattle.udp_tables.specs.declared.table.Udp.{Udp as UdpOf};
    ghost use Rattle.udp_tables.specs.Tables.{AreKept};
    ghost use Rattle.udp_tables.specs.RowKeys.{row_key};
    ghost use Rattle.row_masks.specs.Masks.{AreMasks};
    ghost use Rattle.row_masks.specs.LookUps.{udp_passes};

    /// The keys of the rows of the primitive with this number.
    fn keys_at(&self, number: usize) -> &[RowKey]
        ensures { (udp : UdpOf) → slice_get self.now.model.now.udps number ≡ Some udp → AreKept row_key result.now udp.rows }
    {
        let all = self.index.rows.keys.as_slice();
        match at(all, number) {
            Some(keys) => keys.as_slice(),
            None => &[],
        }
    }

    /// The masks of the rows of the primitive with this number.
    fn masks_at(&self, number: usize) -> &[RowMasks]
        ensures { (udp : UdpOf) → slice_get self.now.model.now.udps number ≡ Some udp
            → AreMasks udp_passes (length udp.inputs) udp.rows result.now }
    {
        masks_at(self.index.rows.masks.as_slice(), number)
    }

    /// What is known of the rows of this primitive, which has this number.
    pub(crate) fn table<'b>(&'b self, number: usize, udp: &'b Udp) -> Table<'b>
        requires { slice_get self.now.model.now.udps number ≡ Some udp.now }
        ensures { result.udp.now ≡ udp.now }
    {
        Table {
            udp,
            keys: self.keys_at(number),
            masks: self.masks_at(number),
        }
    }

    /// The ports of the module.
    pub(crate) fn ports(&self) -> Ports
        ensures { result.list.now ≡ self.now.model.now.ports }
    {
        Ports {
            list: self.model.ports.as_slice(),
            numbers: self.index.numbers.as_slice(),
        }
    }

    /// Paths of the module, among them all that lead to this port.
    pub(crate) fn paths_to(&self, port: usize) -> &[VPath]
        ensures { filter (leads_to port) result.now ≡ filter (leads_to port) self.now.model.now.paths }
    {
        let all = self.index.paths.lists.as_slice();
        match at(all, port) {
            Some(paths) => paths.as_slice(),
            None => self.model.paths.as_slice(),
        }
    }

    /// The places of the instances that a change feeds, in order.
    pub(crate) fn fed_by(&self, what: Turned) -> &[usize]
        ensures { result.now ≡ fed_places self.now.model.now.ports what self.now.model.now.instances }
    {
        match what {
            Turned::Input(input) => self.fed_by_input(input),
            Turned::Notifier => self.index.fed.by_register.as_slice(),
        }
    }

    /// The places of the instances that states may feed, in order.
    pub(crate) fn fed_by_states(&self) -> &[usize]
        ensures { result.now ≡ state_places self.now.model.now.instances }
    {
        self.index.fed.by_states.as_slice()
    }

    /// The places of the instances that an input feeds, in order.
    fn fed_by_input(&self, input: usize) -> &[usize]
        ensures { result.now ≡ fed_places self.now.model.now.ports (turned.Input input) self.now.model.now.instances }
    {
        let all = self.index.fed.by_input.as_slice();
        match at(all, input) {
            Some(places) => places.as_slice(),
            None => &[],
        }
    }

    /// The place of the instance that drives a net, where there is one.
    pub(crate) fn driver(&self, net: VNet) -> Option<usize>
        ensures { result ≡ driver self.now.model.now.instances net }
    {
        self.index.drivers.driver(self.model, net)
    }
}
