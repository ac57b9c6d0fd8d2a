//! Ports of the host.

use std::net::TcpListener;

/// A port that nobody has.
pub fn free_port(host: &HostRuntime) -> Option<u16> {
    let listener = TcpListener::bind(host, "127.0.0.1:0").ok()?;
    let at = listener.local_addr().ok()?;
    Some(at.port())
}
