use crate::steps::StepName;
use mg_names::obligations::Obligation;

/// The first broken obligation of a certificate, as the answer `no` names it.
#[derive(Clone, Copy)]
pub struct Fault {
    /// The obligation.
    pub obligation: Obligation,
    /// The place of the entry in the certificate, from 0, where the obligation is of an entry.
    pub entry: Option<usize>,
    /// The number of the point in the entry.
    pub point: Option<u32>,
    /// The step whose result is not covered.
    pub step: Option<StepName>,
}
