//! The models and the drivers of a text.

use driver_models::DriverModel;
use sqlite_items::Items;

/// The models of a text, and the drivers that its sections hold, both in order.
#[derive(Drop)]
pub struct DrivenModels<M> {
    /// The models around the sections.
    pub models: Items<M>,
    /// The drivers. The core of each is one of the models.
    pub drivers: Items<DriverModel>,
}
