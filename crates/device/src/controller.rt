use flex::unit_map::UnitMap;
use host::mail::Mail;
use host::record::Host;

/// How many hosts share a device.
pub const HOSTS: usize = 8;

/// All that a device holds but its store.
#[derive(Drop)]
pub(super) struct Controller {
    pub(super) number: u32,
    pub(super) map: UnitMap,
    // one array of pairs would be no plainer: each host's mail is written while the records of all hosts are read
    pub(super) hosts: [Host; HOSTS],
    pub(super) mail: [Mail; HOSTS],
    pub(super) activity: u64,
}
