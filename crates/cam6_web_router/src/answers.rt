//! Which answer a request gets.
ghost use Rattle.std.specs.Prelude.{◌≡◌, ◌↔◌, IfNone, IfSome, IsTrue, option_map};
ghost use Rattle.http_header.specs.Token.{lowercase};
ghost use Rattle.cam6_web_router.specs.Answers.{Accepts, AsksForWebSocket, IsAnswerTo, IsAsked};
ghost use Rattle.cam6_web_router.specs.Answers.{IsNoHandshake, IsShow, path_of, field_value};
ghost use Rattle.cam6_web_router.specs.Ways.{LeadsTo};

use crate::routers::Router;
use crate::ways::Way;
use bytes::Bytes;
use cam6_web_page::{File, file_at};
use http::Request;
use websocket::handshake::server::accept_key;

/// What a request is answered.
#[derive(Clone, Copy, Debug, PartialEq, Eq)]
pub enum Answer {
    /// 421: the server isn't asked by one of its names.
    Misdirected,
    /// 405: the method is neither GET nor HEAD.
    WrongMethod,
    /// 200: a file of the page.
    Shows(File),
    /// 200: how many hosts there are.
    Counts,
    /// 404: nothing is at the path.
    NotFound,
    /// 403: a socket is asked for, but not by a page of this server.
    Foreign,
    /// 400: a socket is asked for, but not by a handshake, or the key of the handshake is wrong.
    Malformed,
    /// 503: a socket is asked for, and there is no room for one.
    Full,
    /// 101: a socket is opened. It is accepted by this key, and leads this way.
    Opens([u8; 28], Way),
}

/// Returns the answer to a request. `has_room` says whether one more socket may be opened.
pub fn answer_to(router: &Router, has_room: bool, request: &Request<Bytes>) -> Answer
    ensures { IsAnswerTo router.now has_room request.now result }
{
    let Some(host) = field_value(request, "host") else {
        return Answer::Misdirected;
    };
    if !router.names.is_name(host) {
        return Answer::Misdirected;
    }
    if !is_show(request) {
        return Answer::WrongMethod;
    }
    let path = request.uri().path();
    if let Some(file) = file_at(path) {
        return Answer::Shows(file);
    }
    if path == "/hosts" {
        return Answer::Counts;
    }
    match router.hosts.way_at(path) {
        Some(way) => answer_to_socket(router, has_room, request, host, way),
        None => Answer::NotFound,
    }
}

/// Returns the answer to a GET or HEAD request at a socket's path. `host` is the value of its field
/// `Host`, one of the router's names, and `way` is where its path leads. `has_room` says whether
/// one more socket may be opened.
fn answer_to_socket(
    router: &Router,
    has_room: bool,
    request: &Request<Bytes>,
    host: &[u8],
    way: Way,
) -> Answer
    requires asked { IsAsked router.now.names request.now host.now }
    requires shows { IsShow request.now }
    requires leads { LeadsTo router.now.hosts (path_of request.now) way }
    ensures { IsAnswerTo router.now has_room request.now result }
{
    let Some(origin) = field_value(request, "origin") else {
        return Answer::Foreign;
    };
    if !router.names.is_origin(origin, host) {
        return Answer::Foreign;
    }
    let Some(accept) = accept_key_of(request) else {
        return Answer::Malformed;
    };
    if has_room {
        Answer::Opens(accept, way)
    } else {
        Answer::Full
    }
}

/// Returns the key, for the field `Sec-WebSocket-Accept`, that accepts the WebSocket handshake of a
/// request. Returns `None` if the method isn't GET, if the fields don't ask for a WebSocket, or if
/// its key is missing or wrong.
fn accept_key_of(request: &Request<Bytes>) -> Option<[u8; 28]>
    ensures some { IfSome result (λ accept. Accepts request.now accept) }
    ensures none { IfNone result (IsNoHandshake request.now) }
{
    if request.method().as_str() != "GET" || !asks_for_websocket(request) {
        return None;
    }
    let Some(key) = field_value(request, "sec-websocket-key") else {
        return None;
    };
    match accept_key(key) {
        Ok(accept) => Some(accept),
        Err(_) => None,
    }
}

/// Returns whether the request's fields ask for a WebSocket of version 13: `Upgrade` is
/// `websocket`, in letters of either case, and `Sec-WebSocket-Version` is 13.
fn asks_for_websocket(request: &Request<Bytes>) -> bool
    ensures { IsTrue result ↔ AsksForWebSocket request.now }
{
    let (Some(upgrade), Some(version)) = (
        field_value(request, "upgrade"),
        field_value(request, "sec-websocket-version"),
    ) else {
        return false;
    };
    upgrade.eq_ignore_ascii_case(b"websocket") && version == b"13".as_slice()
}

/// Returns the value of the first field of this name, in letters of either case. Returns `None` if
/// there is no such field.
fn field_value<'a>(request: &'a Request<Bytes>, name: &str) -> Option<&'a [u8]>
    ensures { option_map (λ bytes. bytes.now) result ≡ field_value request.now (lowercase name.now) }
{
    match request.headers().get(name) {
        Some(value) => Some(value.as_bytes()),
        None => None,
    }
}

/// Returns whether the method is GET or HEAD, so that the request only reads.
fn is_show(request: &Request<Bytes>) -> bool
    ensures { IsTrue result ↔ IsShow request.now }
{
    let method = request.method().as_str();
    method == "GET" || method == "HEAD"
}
