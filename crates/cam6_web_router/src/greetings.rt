//! A connection, from its first byte until it is over or a socket.
ghost use Rattle.std.specs.Prelude.{IfOk};
ghost use Rattle.cam6_web_router.specs.Greetings.{Greets};

use crate::sites::Site;
use crate::ways::Way;
use http_server::{Config, Connection, State, serve};
use http1::Limits;
use std::alloc::Global;
use std::hash::RandomState;
use std::io;
use std::io::{Read, Write};
use std::random::RandomSource;

/// How much one request may have. No request for a page or a socket has a body.
const CONFIG: Config = Config {
    limits: Limits {
        max_head_len: 16_384,
        max_extensions_len: 1_024,
        max_trailers_len: 1_024,
    },
    max_body_len: 0,
    max_pending: 65_536,
    read_size: 8_192,
};

/// A socket that was opened: where it leads, and what was read after the request.
#[derive(Drop)]
pub struct Opening {
    pub way: Way,
    pub unread: Vec<u8>,
}

/// Answers the requests of a connection by a site. Returns where its socket leads if the last
/// answer opened one, and the bytes that were read after the handshake. Returns `None` if the
/// connection ended without a socket. Fails if reading, writing, a random seed or an allocation
/// fails.
pub fn greet<T: RandomSource, R: Read, W: Write>(
    source: &T,
    alloc: Global,
    site: &mut Site<'_>,
    reader: &mut R,
    writer: &mut W,
) -> io::Result<Option<Opening>>
    ensures { IfOk result (λ opening. Greets site.old site.new
        (R.remaining reader.old) (R.remaining reader.new)
        (W.contents writer.old) (W.contents writer.new) opening) }
{
    let mut connection = Connection::new(alloc, RandomState::new(source)?, CONFIG);
    serve(&mut connection, site, reader, writer)?;
    let Some(way) = site.opened() else {
        return Ok(None);
    };
    if connection.state() != State::Upgraded {
        return Ok(None);
    }
    let (unread, _) = connection.into_buffers();
    Ok(Some(Opening {
        way,
        unread: Vec::from_slice(alloc, unread.as_slice())?,
    }))
}
