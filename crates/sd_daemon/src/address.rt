// Where the daemon listens.
ghost use Rattle.std.specs.Prelude.{◌≡◌};
ghost use Rattle.std.specs.Net.Socket.{socket_ip, socket_port};
ghost use Rattle.sd_daemon.specs.Address.{IsLocalhost};

use sd_conf::Conf;
use std::net::{IpAddr, Ipv4Addr, SocketAddr};

/// Where a daemon of this configuration listens: on its port, and on 127.0.0.1 alone.
pub(crate) fn address_of(conf: &Conf) -> SocketAddr
    ensures ip { IsLocalhost (socket_ip result) }
    ensures port { socket_port result ≡ conf.now.port }
{
    SocketAddr::new(IpAddr::V4(Ipv4Addr::LOCALHOST), conf.port)
}
