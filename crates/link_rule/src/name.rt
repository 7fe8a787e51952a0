//! Which link it is.

use interference::Network;

/// The link out of a vertex (from 1) by a port (from 0), in a network. Contracts speak of it; no value of it is made.
pub struct LinkName {
    pub network: Network,
    pub vertex: u32,
    pub port: u32,
}

impl Drop for LinkName {
    fn drop(self) {
        let LinkName {
            network: _,
            vertex: _,
            port: _,
        } = self;
    }
}
