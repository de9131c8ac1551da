//! Addresses on the command line.
ghost use Rattle.std.specs.Prelude.{◌≡◌, false, Some, IfSome};
ghost use Rattle.std.specs.Net.Text.{socket_text};
ghost use Rattle.std.specs.Str.{bytes_eq};
ghost use Rattle.bw_args.specs.Addresses.{local};
ghost use Rattle.bw_args.specs.Lines.{IsAddressGiven};

use arrayvec::ArrayString;
use itoa::Buffer;
use std::net::SocketAddr;

/// The address and port that a text spells: a local one, or any if `network` is set. `None` for
/// port 0, which would mean any port.
pub fn address(text: &str, network: bool) -> Option<SocketAddr>
    ensures spelled { IsAddressGiven network (Some text.now) result }
    ensures printed { IfSome result (λ a. network ≡ false → socket_text a ≡ text.now) }
{
    let Ok(address) = text.parse::<SocketAddr>() else {
        return None;
    };
    if address.port() == 0 {
        return None;
    }
    if !network && !is_local(text, address.port()) {
        return None;
    }
    Some(address)
}

/// Whether the text is `127.0.0.1:PORT`, without leading zeros.
fn is_local(text: &str, port: u16) -> bool
    ensures { result ≡ bytes_eq text.now (local port) }
{
    let mut own = ArrayString::<16>::new();
    own.push_str("127.0.0.1:");
    own.push_str(Buffer::new().format(port));
    text == own.as_str()
}
