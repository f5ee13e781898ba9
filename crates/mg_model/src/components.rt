use mg_names::slots::Slot;

/// Where a termination stands, in a configuration.
#[derive(Clone, Copy)]
pub enum Spot {
    /// Nowhere: an ephemeral that does not exist, or a slot that the script has no name for.
    Absent,
    /// In the null context.
    Null,
    /// In a context of the script.
    In(Slot),
}

/// The Remote of an ephemeral termination, in a configuration.
#[derive(Clone, Copy)]
pub enum Remote {
    /// None is set.
    Unset,
    /// It names an ephemeral that was destroyed.
    Gone,
    /// It names an ephemeral of the script.
    To(Slot),
}
