ghost use Rattle.std.specs.Prelude.{◌≡◌, ◌++◌, IfOk};
ghost use Rattle.css_num.specs.Gives.{GivesBy};
ghost use Rattle.css_address.specs.Addresses as addresses;
ghost use Rattle.css_address.specs.declared.fault.AddressFault.TheVariants as faults;

use crate::fault::AddressFault;
use css_num::{Memory, Text};
use css_outside::{Address, Kind};
use std::alloc::Global;
use url::Url;

/// The greatest length of an address's text, in bytes.
pub const LONGEST_ADDRESS: usize = 65_536;

/// The scheme of an address of this kind.
fn scheme_of(kind: Kind) -> &'static str
    ensures { result.now ≡ addresses.scheme_of kind }
{
    match kind {
        Kind::Wc => "udp",
        Kind::Cii | Kind::Ts => "ws",
    }
}

/// The port of an address that names none, where its kind has one.
fn default_port_of(kind: Kind) -> Option<u16>
    ensures { result ≡ addresses.default_port_of kind }
{
    match kind {
        Kind::Wc => None,
        Kind::Cii | Kind::Ts => Some(80),
    }
}

/// The path of a URL, with its query.
fn path_of(alloc: Global, url: &Url) -> Result<Text, Memory>
    ensures { IfOk result (λ path. path ≡ url.now.path ++ addresses.query_text url.now.query) }
{
    let mut path = Text::of(alloc, url.path().as_bytes())?;
    if let Some(query) = url.query() {
        path.push(b"?")?;
        path.push(query.as_bytes())?;
    }
    Ok(path)
}

/// The address of a URL.
fn address_in(alloc: Global, kind: Kind, url: &Url) -> Result<Address, AddressFault>
    ensures { GivesBy (λ address. address) faults.Memory result (addresses.address_in kind url.now) }
{
    if url.scheme() != scheme_of(kind) {
        return Err(AddressFault::Bad);
    }
    let Some(host) = url.host_str() else {
        return Err(AddressFault::Bad);
    };
    let Some(port) = url.port().or(default_port_of(kind)) else {
        return Err(AddressFault::Bad);
    };
    Ok(Address {
        host: Text::of(alloc, host.as_bytes())?,
        port,
        path: path_of(alloc, url)?,
    })
}

/// Where a session of CSS-CII or CSS-TS is dialled, or the wall clock asked, by the text of a URL.
///
/// The text is UTF-8 of at most 65,536 bytes. Its URL, as the URL Standard reads it, has a host, and the scheme `udp`
/// and a port for the wall clock, or the scheme `ws` for a session, whose port is 80 if it names none. `Bad` comes
/// exactly where that isn't so. The address has the host as the URL writes it, with brackets around one of IPv6, the
/// port, and the path with its query. User names, passwords and fragments are passed over.
pub fn address(alloc: Global, kind: Kind, text: &[u8]) -> Result<Address, AddressFault>
    ensures { GivesBy (λ address. address) faults.Memory result (addresses.address_of kind text.now) }
{
    if text.len() > LONGEST_ADDRESS {
        return Err(AddressFault::Bad);
    }
    let Ok(text) = str::from_utf8(text) else {
        return Err(AddressFault::Bad);
    };
    match Url::parse(alloc, text) {
        Ok(url) => address_in(alloc, kind, &url),
        Err(error) => Err(AddressFault::from(error)),
    }
}
