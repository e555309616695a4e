// What accepts connections. Those that were accepted and those that were finished are two lists, where they are told, so
// that a caller can say what became of each.
ghost use Rattle.std.specs.Prelude.{◌≡◌, ◌<◌, length};
ghost use Rattle.std.specs.Option.{ForSome};
ghost use Rattle.addr_wire.specs.Listeners.{Accepts, Finishes, ListenNow, OpensPort};

use crate::conn::Conn;
use addr_base::Failed;

/// A listener at a port.
pub trait Listen {
    type Peer: Conn;

    /// Its port, the connections that were accepted and finished, where these are told, and its count of faults.
    ghost now: { Self → ListenNow };

    /// Begins to listen, and answers the port; 0 lets the listener choose.
    fn open(&mut self, port: u16) -> Result<u16, Failed>
        ensures { OpensPort port (now self.old) result (now self.new) };

    /// The next connection.
    fn accept(&mut self) -> Result<Self::Peer, Failed>
        ensures { Accepts Self.Peer.now (now self.old) result (now self.new) };

    /// Takes a connection back that was served; it is never refused.
    fn finish(&mut self, conn: Self::Peer)
        requires { ForSome (now self.old).conns (λ conns. length conns.finished < length conns.accepted) }
        ensures { Finishes (Self.Peer.now conn) (now self.old) (now self.new) };
}
