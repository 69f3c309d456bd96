//! Where a socket leads, by its path.
ghost use Rattle.std.specs.Prelude.{◌≡◌, ◌↔◌, IfNone, IfOk, IfSome, IsTrue, decimal};
ghost use Rattle.cam6_web_router.specs.Ways.{IsNoWay, LeadsTo, path_to_socket};

use bytes::Bytes;
use std::alloc::{AllocError, Global};
use std::marker::Model;

/// Where the lines of a socket go.
#[derive(Clone, Copy, Debug, PartialEq, Eq)]
pub enum Way {
    /// To a machine of the socket's own.
    Own,
    /// To the host of this number, from 1 on.
    Host(usize),
}

/// How many hosts there are. Each has a path of its own.
#[derive(Drop)]
pub struct Hosts {
    paths: Vec<Bytes>,
    count_text: Bytes,
}

impl Model for Hosts {
    ghost use Rattle.std.specs.Prelude.{◌≡◌, ℕ, decimal, length};
    ghost use Rattle.std.specs.Coded.{coded_ℕ};

    ghost Value = { ℕ };

    ghost coded = { coded_ℕ };

    ghost use Rattle.cam6_web_router.specs.Ways.{ArePaths};

    ghost view = { λ h. length h.paths.items };

    ghost invariant = { λ h. ArePaths h.paths.items × (h.count_text ≡ decimal (length h.paths.items)) };
}

impl Hosts {
    /// Makes `count` hosts, each with a path of its own.
    pub fn new(alloc: Global, count: usize) -> Result<Hosts, AllocError>
        ensures { IfOk result (λ hosts. hosts ≡ count) }
    {
        let mut paths = Vec::new(alloc);
        while paths.len() < count {
            let number = paths.len() + 1;
            let path = format!(in alloc; "/ws/{number}")?;
            paths.push(Bytes::copy_from_slice(alloc, path.as_bytes())?)?;
        }
        let count_text = format!(in alloc; "{count}")?;
        Ok(Hosts {
            paths,
            count_text: Bytes::copy_from_slice(alloc, count_text.as_bytes())?,
        })
    }

    /// Returns the number of hosts in decimal.
    pub fn count_text(&self) -> &[u8]
        ensures { result.now ≡ decimal self.now }
    {
        self.count_text.as_slice()
    }

    /// Returns where the socket at a path leads. `/ws` leads to the first host or, if there is
    /// none, to a machine of the socket's own. `/ws/K` leads to host K, counted from 1. Returns
    /// `None` for any other path.
    pub fn way_at(&self, path: &str) -> Option<Way>
        ensures found { IfSome result (λ way. LeadsTo self.now path.now way) }
        ensures none { IfNone result (IsNoWay self.now path.now) }
    {
        if are_bytes_of(path.as_bytes(), "/ws") {
            return Some(first_way(self.paths.len()));
        }
        let mut index = 0;
        while index < self.paths.len() {
            if are_bytes_of(self.paths[index].as_slice(), path) {
                return Some(Way::Host(index + 1));
            }
            index += 1;
        }
        None
    }
}

/// Returns whether bytes are exactly those of a text.
fn are_bytes_of(bytes: &[u8], text: &str) -> bool
    ensures { IsTrue result ↔ (bytes.now ≡ text.now) }
{
    bytes == text.as_bytes()
}

/// Returns where the socket at `/ws` leads if there are this many hosts.
fn first_way(hosts: usize) -> Way
    ensures { LeadsTo hosts path_to_socket result }
{
    if hosts == 0 { Way::Own } else { Way::Host(1) }
}
