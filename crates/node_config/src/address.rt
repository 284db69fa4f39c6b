//! The addresses at which peers connect.
ghost use Rattle.std.specs.Prelude.{◌≡◌, ◌≢◌, ◌<◌, ◌^◌, ◌++◌, ◌↔◌, ℕ, List, [], bytes_eq, codes, IsTrue, MatchOption, true};
ghost use Rattle.std.specs.Net.Grammar.{IsNumber};
ghost use Rattle.std.specs.Net.Socket.{v4_ip, v4_port};
ghost use Rattle.node_config.specs.Addresses.{IsAddressText, IsEndpointText, IsHost, IsPort, is_socket_path, socket_text};
ghost use Rattle.node_config.specs.declared.address.Endpoint.{Endpoint as AnyEndpoint};

use std::net::{Ipv4Addr, SocketAddrV4};

/// How many bytes the path of a Unix socket may have (`sun_path` of Linux, less the zero at its end).
const MAX_SOCKET_PATH: usize = 107;

/// Where a socket is.
#[derive(Clone, Copy, Debug)]
pub enum Endpoint<'a> {
    /// At an IPv4 address and a port.
    Ip(SocketAddrV4),
    /// At this path: a Unix socket.
    Unix(&'a str),
}

/// Reads where a socket is: an address ([`read_address`]), or `unix:` and an absolute path, as `unix:/home/me/.config/bepd/bepd.socket`, which has 107 bytes at
/// most, and no byte 0. `None` for any other text. Does not allocate. O(n).
pub fn read_endpoint(text: &str) -> Option<Endpoint<'_>>
    ensures { MatchOption result ((endpoint : AnyEndpoint) → ¬ (IsEndpointText text.now endpoint)) (IsEndpointText text.now) }
{
    if let Some(address) = read_address(text) {
        return Some(Endpoint::Ip(address));
    }
    match read_socket_path(text) {
        Some(path) => Some(Endpoint::Unix(path)),
        None => None,
    }
}

/// The path of a Unix socket.
fn read_socket_path(text: &str) -> Option<&str>
    ensures { MatchOption result ((path : List ℕ) → text.now ≡ codes "unix:" ++ path → is_socket_path path ≢ true) (λ path. (text.now ≡ codes "unix:" ++ path.now) × (is_socket_path path.now ≡ true)) }
{
    let path = after(text, "unix:")?;
    if is_socket_path(path) {
        Some(path)
    } else {
        None
    }
}

/// Whether a path is absolute, has no byte 0, and is not too long for a socket.
fn is_socket_path(path: &str) -> bool
    ensures { result ≡ is_socket_path path.now }
{
    let bytes = path.as_bytes();
    bytes.starts_with(b"/") && bytes.len() <= MAX_SOCKET_PATH && !bytes.contains(&0)
}

/// Reads an address: a host, a colon and a port, as `192.0.2.1:22000`. A host is an IPv4 address, or `localhost`, which is 127.0.0.1.
///
/// A port is 0 to 65535 in decimal digits. Neither it nor the four numbers of an IPv4 address have leading zeros, and there is no sign
/// and no space. `None` for any other text. Does not allocate. O(n).
pub fn read_address(text: &str) -> Option<SocketAddrV4>
    ensures { MatchOption result ((address : SocketAddrV4) → ¬ (IsAddressText text.now address)) (IsAddressText text.now) }
{
    let (host, digits) = at_colon(text)?;
    let ip = read_host(host)?;
    let port = read_port(digits)?;
    Some(SocketAddrV4::new(ip, port))
}

/// The text before the first colon, and that after it.
fn at_colon(text: &str) -> Option<(&str, &str)>
    ensures { MatchOption result ((address : SocketAddrV4) → ¬ (IsAddressText text.now address)) (λ parts. (text.now ≡ parts.0.now ++ (codes ":" ++ parts.1.now)) × ((address : SocketAddrV4) → IsAddressText text.now address → IsHost parts.0.now (v4_ip address) × IsPort parts.1.now (v4_port address))) }
{
    text.split_once(':')
}

/// The IPv4 address of a host.
fn read_host(host: &str) -> Option<Ipv4Addr>
    ensures { MatchOption result ((ip : Ipv4Addr) → ¬ (IsHost host.now ip)) (IsHost host.now) }
{
    if host == "localhost" {
        return Some(Ipv4Addr::new(127, 0, 0, 1));
    }
    host.parse().ok()
}

/// The port that decimal digits write.
fn read_port(digits: &str) -> Option<u16>
    ensures { MatchOption result ((port : ℕ) → ¬ (IsPort digits.now port)) (IsPort digits.now) }
{
    if has_leading_zero(digits) {
        return None;
    }
    read_number(digits)
}

/// The number of 16 bits that decimal digits write.
fn read_number(digits: &str) -> Option<u16>
    ensures { MatchOption result ((number : ℕ) → ¬ (IsNumber 10 digits.now number × (number < 2 ^ 16))) (λ number. IsNumber 10 digits.now number × (number < 2 ^ 16)) }
{
    if digits.starts_with('+') {
        return None;
    }
    digits.parse().ok()
}

/// Whether the digits begin with a zero and go on after it.
fn has_leading_zero(digits: &str) -> bool
    ensures { IsTrue result ↔ ((rest : List ℕ) × (digits.now ≡ codes "0" ++ rest) × (rest ≢ [])) }
{
    match after(digits, "0") {
        Some(rest) => !rest.is_empty(),
        None => false,
    }
}

/// Whether two texts mean the same socket, as `localhost:1` and `127.0.0.1:1` do. Texts that are no addresses are compared as they are.
/// Does not allocate. O(n).
pub(crate) fn is_same_socket(text: &str, other: &str) -> bool
    ensures { result ≡ bytes_eq (socket_text text.now) (socket_text other.now) }
{
    match (after_this_machine(text), after_this_machine(other)) {
        (Some(rest), Some(other_rest)) => rest == other_rest,
        (Some(_), None) => false,
        (None, Some(_)) => false,
        (None, None) => text == other,
    }
}

/// What follows `localhost:` or `127.0.0.1:`.
fn after_this_machine(text: &str) -> Option<&str>
    ensures other { MatchOption result (socket_text text.now ≡ text.now) (λ _. Unit {0}) }
    ensures rest { MatchOption result ((rest : List ℕ) → socket_text text.now ≢ codes "127.0.0.1:" ++ rest) (λ rest. socket_text text.now ≡ codes "127.0.0.1:" ++ rest.now) }
{
    match after(text, "localhost:") {
        Some(rest) => Some(rest),
        None => after(text, "127.0.0.1:"),
    }
}

/// What follows a text with which this one begins.
fn after<'a>(text: &'a str, front: &str) -> Option<&'a str>
    ensures { MatchOption result ((rest : List ℕ) → text.now ≢ front.now ++ rest) (λ rest. text.now ≡ front.now ++ rest.now) }
{
    text.strip_prefix(front)
}
