//! How long a client is waited for, and how soon it is answered.

use std::net::OpenStream;
use std::time::Duration;

/// Has each read and each write of a connection fail that waits longer than so many seconds, and says whether the system
/// does so. Without a number they wait for any time.
pub fn bound<S: OpenStream>(socket: &S, idle: Option<u32>) -> bool {
    let Some(seconds) = idle else {
        return true;
    };
    let longest = Some(Duration::from_secs(u64::from(seconds)));
    socket.set_read_timeout(longest).is_ok() && socket.set_write_timeout(longest).is_ok()
}

/// Has replies sent at once, and bounds each read and each write as `bound` does. Says whether they are bounded.
pub fn prepare<S: OpenStream>(socket: &S, idle: Option<u32>) -> bool {
    // Without this, a short reply would wait until what was sent before it is acknowledged.
    let _quick = socket.set_nodelay(true);
    bound(socket, idle)
}
