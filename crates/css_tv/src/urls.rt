ghost use Rattle.std.specs.Prelude.{◌≡◌, ◌≤◌, IfOk};
ghost use Rattle.std.specs.Str.{IsUtf8};
ghost use Rattle.css_tv.specs.States as spec;

use crate::state::Addresses;
use css_num::{Memory, Text};
use std::alloc::Global;

/// `udp://HOST:PORT`.
fn wc_url(alloc: Global, host: &Text, port: u16) -> Result<Text, Memory>
    ensures { IfOk result (λ url. url ≡ spec.wc_url host.now port) }
{
    let mut url = Text::of(alloc, b"udp://")?;
    url.push(host.bytes())?;
    url.push(b":")?;
    url.push_number(i128::from(port))?;
    Ok(url)
}

/// `ws://HOST:Q/ts`, where Q is the port after that of the wall clock.
fn ts_url(alloc: Global, host: &Text, port: u16) -> Result<Text, Memory>
    requires { port ≤ 65534 }
    ensures { IfOk result (λ url. url ≡ spec.ts_url host.now port) }
{
    let mut url = Text::of(alloc, b"ws://")?;
    url.push(host.bytes())?;
    url.push(b":")?;
    url.push_number(i128::from(port + 1))?;
    url.push(b"/ts")?;
    Ok(url)
}

/// Where companions ask for the wall clock, and where they dial CSS-TS.
pub fn addresses_of(alloc: Global, host: &Text, port: u16) -> Result<Addresses, Memory>
    requires utf8 { IsUtf8 host.now }
    requires port { port ≤ 65534 }
    ensures value { IfOk result (λ addresses. addresses ≡ spec.addresses_of host.now port) }
    ensures wc_utf8 { IfOk result (λ addresses. IsUtf8 addresses.wc_url) }
    ensures ts_utf8 { IfOk result (λ addresses. IsUtf8 addresses.ts_url) }
{
    let clock = wc_url(alloc, host, port)?;
    let sessions = ts_url(alloc, host, port)?;
    Ok(Addresses {
        wc_url: clock,
        ts_url: sessions,
    })
}
