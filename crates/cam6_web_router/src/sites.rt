//! A site: what is answered, as responses.
ghost use Rattle.std.specs.Prelude.{◌≡◌, ◌∷◌, [], OnOk, codes};
ghost use Rattle.http_server.specs.Response.{IsBlank, IsResponse};
ghost use Rattle.cam6_web_router.specs.Sites.{Tells, fields_of_kind, plain, type_of, way_of};

use crate::answers::{Answer, answer_to};
use crate::refusals;
use crate::routers::Router;
use crate::ways::Way;
use bytes::Bytes;
use cam6_web_page::{Kind, bytes_of, kind_of};
use http::{HeaderValue, Request, StatusCode, header};
use http_server::{Response, Service};
use std::alloc::{AllocError, Global};

/// What the page may load: what this server has and, as pictures and films, what the page makes
/// itself. No other page may frame it.
const POLICY: &str = "default-src 'self'; img-src 'self' data: blob:; media-src 'self' blob:; \
    style-src 'self'; connect-src 'self'; frame-ancestors 'none'";

/// The page, its files and its sockets, for one connection.
#[derive(Drop)]
pub struct Site<'a> {
    alloc: Global,
    router: &'a Router,
    has_room: bool,
    opened: Option<Way>,
}

impl<'a> Site<'a> {
    /// Makes the site that a router serves to one connection, without an opened socket. `has_room`
    /// says whether one more socket may be opened.
    pub fn new(alloc: Global, router: &'a Router, has_room: bool) -> Site<'a>
        ensures router { result.router.now ≡ router.now }
        ensures has_room { result.has_room ≡ has_room }
        ensures opened { result.opened ≡ None }
    {
        Site {
            alloc,
            router,
            has_room,
            opened: None,
        }
    }

    /// Returns where the socket leads that the last answer opened, or `None` if it opened none.
    pub fn opened(&self) -> Option<Way>
        ensures { result ≡ self.now.opened }
    {
        self.opened
    }
}

impl<'a> Service for Site<'a> {
    ghost use Rattle.cam6_web_router.specs.Sites.{Answers};

    ghost answers = { Answers };

    /// Answers a request in the response, and notes where its socket leads, if the answer opens
    /// one. If an allocation fails, notes nothing.
    fn call(
        &mut self,
        request: &Request<Bytes>,
        response: &mut Response,
    ) -> Result<(), AllocError> {
        let answer = answer_to(self.router, self.has_room, request);
        write_answer(self.alloc, self.router, answer, response)?;
        self.opened = way_of(answer);
        Ok(())
    }
}

/// Returns where the socket leads that an answer opens, or `None` for any other answer.
fn way_of(answer: Answer) -> Option<Way>
    ensures { result ≡ way_of answer }
{
    match answer {
        Answer::Opens(_, way) => Some(way),
        _ => None,
    }
}

/// Fills a blank response with an answer: its status, fields and body.
fn write_answer(
    alloc: Global,
    router: &Router,
    answer: Answer,
    response: &mut Response,
) -> Result<(), AllocError>
    requires { IsBlank response.old }
    ensures { OnOk result (Tells router.now answer response.new) }
{
    match answer {
        Answer::Misdirected => refuse(
            response,
            StatusCode::MISDIRECTED_REQUEST,
            refusals::MISDIRECTED,
        ),
        Answer::WrongMethod => {
            refuse(
                response,
                StatusCode::METHOD_NOT_ALLOWED,
                refusals::WRONG_METHOD,
            )?;
            response.add_header(header::ALLOW, HeaderValue::from_static("GET, HEAD"))
        }
        Answer::Shows(file) => {
            let bytes = Bytes::from_static(bytes_of(file));
            show(response, StatusCode::OK, type_of(kind_of(file)), bytes)?;
            response.add_header(header::CONTENT_ENCODING, HeaderValue::from_static("gzip"))
        }
        Answer::Counts => {
            let count = Bytes::copy_from_slice(alloc, router.hosts.count_text())?;
            show(response, StatusCode::OK, plain_text(), count)
        }
        Answer::NotFound => refuse(response, StatusCode::NOT_FOUND, refusals::NOT_FOUND),
        Answer::Foreign => refuse(response, StatusCode::FORBIDDEN, refusals::FOREIGN),
        Answer::Malformed => refuse(response, StatusCode::BAD_REQUEST, refusals::MALFORMED),
        Answer::Full => refuse(response, StatusCode::SERVICE_UNAVAILABLE, refusals::FULL),
        Answer::Opens(accept, way) => open(alloc, router, response, accept, way),
    }
}

/// Returns the content type of a file of this kind.
fn type_of(kind: Kind) -> HeaderValue
    ensures { result.bytes ≡ type_of kind }
{
    match kind {
        Kind::Html => HeaderValue::from_static("text/html; charset=utf-8"),
        Kind::Style => HeaderValue::from_static("text/css; charset=utf-8"),
        Kind::Script => HeaderValue::from_static("text/javascript; charset=utf-8"),
    }
}

/// Returns the content type of a plain text.
fn plain_text() -> HeaderValue
    ensures { result.bytes ≡ plain }
{
    HeaderValue::from_static("text/plain; charset=utf-8")
}

/// Fills a blank response with a refusal: this status, a plain text as the body, and the fields
/// that `show` adds.
fn refuse(response: &mut Response, status: StatusCode, text: &'static str) -> Result<(), AllocError>
    requires { IsBlank response.old }
    ensures { OnOk result (IsResponse status (fields_of_kind plain) text.now response.new) }
{
    let text = Bytes::from_static(text.as_bytes());
    show(response, status, plain_text(), text)
}

/// Fills a blank response with this status, and a text of this content type as the body. Adds the
/// fields that every response but an opened socket's has.
fn show(
    response: &mut Response,
    status: StatusCode,
    kind: HeaderValue,
    text: Bytes,
) -> Result<(), AllocError>
    requires { IsBlank response.old }
    ensures { OnOk result (IsResponse status (fields_of_kind kind.bytes) text response.new) }
{
    response.status = status;
    response.add_header(header::CONNECTION, HeaderValue::from_static("close"))?;
    response.add_header(header::CONTENT_TYPE, kind)?;
    response.add_header(
        header::CONTENT_SECURITY_POLICY,
        HeaderValue::from_static(POLICY),
    )?;
    response.add_header(
        header::X_CONTENT_TYPE_OPTIONS,
        HeaderValue::from_static("nosniff"),
    )?;
    response.add_header(header::CACHE_CONTROL, HeaderValue::from_static("no-store"))?;
    response.body.push(text)
}

/// Fills a blank response with status 101, the fields that open a socket, and the key `accept`. It
/// has no body. `router` and `way` are for the contract only.
fn open(
    alloc: Global,
    router: &Router,
    response: &mut Response,
    accept: [u8; 28],
    way: Way,
) -> Result<(), AllocError>
    requires { IsBlank response.old }
    ensures { OnOk result (Tells router.now (Answer.Opens accept way) response.new) }
{
    let Ok(value) = HeaderValue::from_bytes(alloc, accept.as_slice()) else {
        return Err(AllocError);
    };
    response.status = StatusCode::SWITCHING_PROTOCOLS;
    response.add_header(header::CONNECTION, HeaderValue::from_static("Upgrade"))?;
    response.add_header(header::UPGRADE, HeaderValue::from_static("websocket"))?;
    response.add_header(header::SEC_WEBSOCKET_ACCEPT, value)
}
