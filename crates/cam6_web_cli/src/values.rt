//! What the word at an option says.
ghost use Rattle.std.specs.Prelude.{◌≡◌, IfErr, IfOk, List, map, option_map, string_bytes};
ghost use Rattle.std.specs.Net.Grammar.{IsSocketText};
ghost use Rattle.clap.specs.Walk.{texts};
ghost use Rattle.cam6_web_cli.specs.Values.{AreAddresses, side_by as side_told};
ghost use Rattle.cam6_web_cli.specs.Words.{given};
ghost use Rattle.std.specs.declared.net.socket_addr.SocketAddr.{SocketAddr};

use cam6_planes::Side;
use std::alloc::{AllocError, Global};
use std::net::SocketAddr;

/// Returns the side that an option's word names, or 512 if the option isn't there. Returns `None`
/// if the word names no side.
pub fn side_by(word: Option<&str>) -> Option<Side>
    ensures { result ≡ side_told (option_map (λ word. word.now) word.entry) }
{
    match word {
        Some(word) => Side::named(word),
        None => Some(Side::S512),
    }
}

/// Why words at `--host` are no addresses.
#[derive(Clone, Copy, Debug, PartialEq, Eq)]
pub enum Unaddressed {
    /// One of them isn't an address and a port.
    NoAddress,
    /// An allocation failed.
    NoMemory,
}

/// Parses the words of an option as addresses, in order. Returns no addresses without the option.
/// Returns `NoAddress` if a word isn't an IP address and a port, and `NoMemory` if an allocation
/// fails.
pub fn addresses_by(alloc: Global, words: Option<&[&str]>) -> Result<Vec<SocketAddr>, Unaddressed>
    ensures addresses { IfOk result (λ addresses.
        AreAddresses (given (option_map (λ words. texts words.now) words.entry)) addresses.items) }
    ensures none { IfErr result (λ why. why ≡ Unaddressed.NoAddress →
        (addresses : List SocketAddr) →
        ¬ (AreAddresses (given (option_map (λ words. texts words.now) words.entry)) addresses)) }
{
    match words {
        Some(words) => addresses_of(alloc, words),
        None => Ok(Vec::new(alloc)),
    }
}

/// Parses words as addresses, in order. Returns `NoAddress` if a word isn't an IP address and a
/// port, and `NoMemory` if an allocation fails.
fn addresses_of(alloc: Global, words: &[&str]) -> Result<Vec<SocketAddr>, Unaddressed>
    ensures addresses { IfOk result (λ addresses. AreAddresses (texts words.now) addresses.items) }
    ensures none { IfErr result (λ why. why ≡ Unaddressed.NoAddress →
        (addresses : List SocketAddr) → ¬ (AreAddresses (texts words.now) addresses)) }
{
    let mut addresses = Vec::new(alloc);
    let mut rest = words;
    while let [first, later @ ..] = rest {
        let Ok(address) = first.parse::<SocketAddr>() else {
            return Err(Unaddressed::NoAddress);
        };
        if addresses.push(address).is_err() {
            return Err(Unaddressed::NoMemory);
        }
        rest = later;
    }
    Ok(addresses)
}

/// Returns copies of the words of an option, in order. Returns no words without the option.
pub fn copied_by(alloc: Global, words: Option<&[&str]>) -> Result<Vec<String>, AllocError>
    ensures { IfOk result (λ copies. map string_bytes copies.items
        ≡ given (option_map (λ words. texts words.now) words.entry)) }
{
    match words {
        Some(words) => copied(alloc, words),
        None => Ok(Vec::new(alloc)),
    }
}

/// Returns copies of these words, in order.
fn copied(alloc: Global, words: &[&str]) -> Result<Vec<String>, AllocError>
    ensures { IfOk result (λ copies. map string_bytes copies.items ≡ texts words.now) }
{
    let mut copies = Vec::new(alloc);
    let mut rest = words;
    while let [first, later @ ..] = rest {
        copies.push(String::from_str(alloc, first)?)?;
        rest = later;
    }
    Ok(copies)
}
