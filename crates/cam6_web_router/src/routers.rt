//! The names of a server and its hosts: all that an answer depends on besides the request.

use crate::names::Names;
use crate::ways::Hosts;

/// What a server answers by.
#[derive(Drop)]
pub struct Router {
    pub names: Names,
    pub hosts: Hosts,
}
