//! Where operators connect to a server on this machine.
ghost use Rattle.std.specs.Prelude.{◌≡◌, IfOk};

use crate::network::TcpNetwork;
use bw_net::{TcpReactor, TcpStatusPort};
use bw_operators::StatusSetup;
use std::io;
use std::net::SocketAddr;

impl<'a> StatusSetup<TcpReactor<'a>> for TcpNetwork<'a> {
    ghost use Rattle.bw_machine.specs.SeenMachine.{network_failures};
    ghost use Rattle.bw_net.specs.SeenLinks.{port_address, port_folder};

    type Port = TcpStatusPort<'a>;

    ghost failures = { network_failures };

    ghost shows = { λ n reactor address folder result n'. IfOk result (λ port.
        (port_address port ≡ address) × (port_folder port ≡ folder)) };

    fn status_port(
        &mut self,
        reactor: &TcpReactor<'a>,
        address: SocketAddr,
        folder: &str,
    ) -> io::Result<TcpStatusPort<'a>> {
        let port = TcpStatusPort::listen(self.rt, self.lines, reactor, address, folder);
        if port.is_err() {
            self.failures = self.failures.saturating_add(1);
        }
        port
    }
}
