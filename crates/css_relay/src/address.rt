ghost use Rattle.std.specs.Prelude.{◌≡◌, IfOk};
ghost use Rattle.std.specs.Str.{IsUtf8};
ghost use Rattle.css_relay.specs.Relays as spec;

use css_num::{Memory, Text};
use std::alloc::Global;

/// `udp://HOST:PORT`.
fn udp_url(alloc: Global, host: &Text, port: u16) -> Result<Text, Memory>
    ensures { IfOk result (λ url. url ≡ spec.wc_url_of host.now port) }
{
    let mut url = Text::of(alloc, b"udp://")?;
    url.push(host.bytes())?;
    url.push(b":")?;
    url.push_number(i128::from(port))?;
    Ok(url)
}

/// Where a relay serves the wall clock. It is UTF-8 where the host is.
pub(crate) fn wc_url(alloc: Global, host: &Text, port: u16) -> Result<Text, Memory>
    requires { IsUtf8 host.now }
    ensures value { IfOk result (λ url. url ≡ spec.wc_url_of host.now port) }
    ensures utf8 { IfOk result IsUtf8 }
{
    udp_url(alloc, host, port)
}
