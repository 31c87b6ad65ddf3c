// How the serving of a connection ends.
use fh_wire::WireFault;

/// How the serving of a connection ends.
#[derive(Clone, Copy, Debug, PartialEq, Eq)]
pub enum FrontEnd {
    /// Its response was written.
    Served,
    /// Its request asks that the host stops.
    Stop,
    /// Its request couldn't be read, or else its response not written.
    Fault(WireFault),
}
