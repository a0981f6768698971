use super::fault::HostFault;
use super::transaction::Failure;

/// What a segment came to: how many blocks were tried, what there is to report now, and the first fault that was met.
#[derive(Clone, Copy)]
pub struct Progress {
    pub tried: u32,
    pub outcome: Option<Failure>,
    pub fault: Option<HostFault>,
}
