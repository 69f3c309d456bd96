//! The names by which the server is asked, and the origins of its pages.
ghost use Rattle.std.specs.Prelude.{◌≡◌, ◌↔◌, ◌∷◌, [], ◌++◌, Contains, IfOk, IsTrue, OnErr, OnOk, codes};
ghost use Rattle.cam6_web_router.specs.Names.{IsName, IsOrigin, named};

use bytes::Bytes;
use std::alloc::{AllocError, Global};
use std::marker::Model;

/// The names by which a page of the server may be asked for: `127.0.0.1:PORT`, `localhost:PORT`, and
/// those that were added, for example the name of a proxy.
#[derive(Drop)]
pub struct Names {
    alloc: Global,
    port: u16,
    address: Vec<u8>,
    local: Vec<u8>,
    added: Vec<Bytes>,
}

impl Model for Names {
    ghost use Rattle.std.specs.Prelude.{◌≡◌, ◌++◌, codes, decimal};
    ghost use Rattle.cam6_web_router.specs.Names.{Named};

    ghost Value = { Named };

    ghost view = { λ n. record { port = n.port; added = n.added.items } };

    ghost invariant = { λ n. (n.address.items ≡ codes "127.0.0.1:" ++ decimal n.port)
        × (n.local.items ≡ codes "localhost:" ++ decimal n.port) };
}

impl Names {
    /// Makes the names for a port: `127.0.0.1` and `localhost`, each with a colon and the port
    /// after it.
    pub fn new(alloc: Global, port: u16) -> Result<Names, AllocError>
        ensures { IfOk result (λ names. names ≡ named port []) }
    {
        let address = format!(in alloc; "127.0.0.1:{port}")?;
        let local = format!(in alloc; "localhost:{port}")?;
        Ok(Names {
            alloc,
            port,
            address: address.into_bytes(),
            local: local.into_bytes(),
            added: Vec::new(alloc),
        })
    }

    /// Adds a name, as the field `Host` spells it: in small letters, with its port if it has one.
    /// If an allocation fails, the names stay.
    pub fn add(&mut self, name: &str) -> Result<(), AllocError>
        ensures ok { OnOk result (self.new ≡ named self.old.port (self.old.added ++ name.now ∷ [])) }
        ensures err { OnErr result (self.new ≡ self.old) }
    {
        let name = Bytes::copy_from_slice(self.alloc, name.as_bytes())?;
        self.added.push(name)?;
        Ok(())
    }

    /// Returns whether the value of a field `Host` is, byte for byte, one of the names: those for
    /// the port, or an added one.
    pub fn is_name(&self, host: &[u8]) -> bool
        ensures { IsTrue result ↔ IsName self.now host.now }
    {
        host == self.address.as_slice() || host == self.local.as_slice() || self.is_added(host)
    }

    /// Returns whether the value of a field `Host` is one of the added names.
    fn is_added(&self, host: &[u8]) -> bool
        ensures { IsTrue result ↔ Contains self.now.added host.now }
    {
        is_among(self.added.as_slice(), host)
    }

    /// Returns whether the value of a field `Origin` is that of the server's own pages under the
    /// name `host`. That is `http://` and the name, or `https://` and the name if it was added.
    pub fn is_origin(&self, origin: &[u8], host: &[u8]) -> bool
        ensures { IsTrue result ↔ IsOrigin self.now host.now origin.now }
    {
        is_plain_origin(origin, host) || (is_secure_origin(origin, host) && self.is_added(host))
    }
}

/// Returns whether `text` is, byte for byte, equal to one of `texts`.
fn is_among(texts: &[Bytes], text: &[u8]) -> bool
    ensures { IsTrue result ↔ Contains texts.now text.now }
{
    for each in texts {
        if each.as_slice() == text {
            return true;
        }
    }
    false
}

/// Returns whether the value of a field `Origin` is `http://` and the host's name.
fn is_plain_origin(origin: &[u8], host: &[u8]) -> bool
    ensures { IsTrue result ↔ (origin.now ≡ codes "http://" ++ host.now) }
{
    match origin.strip_prefix(b"http://") {
        Some(rest) => rest == host,
        None => false,
    }
}

/// Returns whether the value of a field `Origin` is `https://` and the host's name.
fn is_secure_origin(origin: &[u8], host: &[u8]) -> bool
    ensures { IsTrue result ↔ (origin.now ≡ codes "https://" ++ host.now) }
{
    match origin.strip_prefix(b"https://") {
        Some(rest) => rest == host,
        None => false,
    }
}
