use block_library::TxPlan;

/// What may be put into a lane.
#[derive(Clone, Copy, Debug, PartialEq, Eq)]
pub enum LanePlan {
    Any,
    /// The packets that the Tx block of this plan gives, in order.
    Producer(TxPlan),
}
