// A listener over a socket of the system, on the loopback alone: what serves other machines stands in front of it.
ghost use Rattle.std.specs.Prelude.{None};
ghost use Rattle.addr_wire.specs.Listeners.{ListenNow};

use crate::conn::TcpConn;
use addr_base::Failed;
use addr_wire::Listen;
use std::net::{Ipv4Addr, Net, OpenListener, SocketAddr, SocketAddrV4};

/// A listener at a port of the loopback.
#[derive(Drop)]
pub struct TcpListen<'a, R: Net> {
    net: &'a R,
    listener: Option<R::Listener>,
    faults: u64,
}

impl<'a, R: Net> TcpListen<'a, R> {
    pub fn new(net: &'a R) -> TcpListen<'a, R> {
        TcpListen {
            net,
            listener: None,
            faults: 0,
        }
    }
}

impl<R: Net> Listen for TcpListen<'_, R> {
    type Peer = TcpConn<R::Stream>;

    ghost now = { λ listen. record { port = None; conns = None; faults = listen.faults } };

    fn open(&mut self, port: u16) -> Result<u16, Failed> {
        let address = SocketAddr::V4(SocketAddrV4::new(Ipv4Addr::LOCALHOST, port));
        if let Ok(listener) = self.net.bind(address) {
            if let Ok(bound) = listener.local_addr() {
                self.listener = Some(listener);
                return Ok(bound.port());
            }
        }
        self.faults = self.faults.saturating_add(1);
        Err(Failed)
    }

    fn accept(&mut self) -> Result<TcpConn<R::Stream>, Failed> {
        if let Some(listener) = &self.listener {
            if let Ok((stream, _)) = listener.accept() {
                return Ok(TcpConn::new(stream));
            }
        }
        self.faults = self.faults.saturating_add(1);
        Err(Failed)
    }

    /// Closes it.
    fn finish(&mut self, _conn: TcpConn<R::Stream>) {}
}
