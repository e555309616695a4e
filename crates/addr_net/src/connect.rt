// A connector over sockets of the system: one stream, which the next `open` or `shut` closes.
ghost use Rattle.std.specs.Prelude.{None};
ghost use Rattle.addr_wire.specs.Talks.{ConnectNow};

use crate::conn::{limit_waiting, read_once};
use addr_base::Failed;
use addr_wire::Connect;
use std::io::Write;
use std::net::{Net, TcpStream};

/// A connector over streams of the system.
#[derive(Drop)]
pub struct TcpConnect<'a, R: Net> {
    net: &'a R,
    stream: Option<R::Stream>,
    faults: u64,
}

impl<'a, R: Net> TcpConnect<'a, R> {
    pub fn new(net: &'a R) -> TcpConnect<'a, R> {
        TcpConnect {
            net,
            stream: None,
            faults: 0,
        }
    }
}

impl<R: Net> Connect for TcpConnect<'_, R> {
    ghost now = { λ connect. record { talk = None; faults = connect.faults } };

    fn open(&mut self, host: &str, port: u16) -> Result<(), Failed> {
        self.stream = None;
        match TcpStream::connect(self.net, (host, port)) {
            Ok(stream) => {
                limit_waiting(&stream);
                self.stream = Some(stream);
                Ok(())
            }
            Err(_) => {
                self.faults = self.faults.saturating_add(1);
                Err(Failed)
            }
        }
    }

    fn send(&mut self, bytes: &[u8]) -> Result<(), Failed> {
        if let Some(stream) = &mut self.stream {
            if stream.write_all(bytes).is_ok() {
                return Ok(());
            }
        }
        self.faults = self.faults.saturating_add(1);
        Err(Failed)
    }

    fn receive(&mut self, into: &mut [u8]) -> Result<usize, Failed> {
        if let Some(stream) = &mut self.stream {
            if let Some(count) = read_once(stream, into) {
                return Ok(count);
            }
        }
        self.faults = self.faults.saturating_add(1);
        Err(Failed)
    }

    fn shut(&mut self) {
        self.stream = None;
    }

    fn count(&self) -> u64 {
        self.faults
    }
}
