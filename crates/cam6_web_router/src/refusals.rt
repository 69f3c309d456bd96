//! The texts of refusals, for those who see one in a browser.

/// Of 421.
pub const MISDIRECTED: &str = "No page has this name. Start cam6_web with --name NAME to add it.\n";

/// Of 405.
pub const WRONG_METHOD: &str = "Only GET and HEAD are answered.\n";

/// Of 404.
pub const NOT_FOUND: &str = "Nothing is here. The page is at /.\n";

/// Of 403.
pub const FOREIGN: &str = "Only a page of this server may open a socket.\n";

/// Of 400.
pub const MALFORMED: &str = "This is not a WebSocket handshake, or its key is wrong.\n";

/// Of 503.
pub const FULL: &str = "No connection is free. Close a page, or try again later.\n";
