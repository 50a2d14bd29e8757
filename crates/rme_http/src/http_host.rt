//! Whether a request names this machine as its host.
//!
//! A page of another site can have a name that first leads to that site and then to this machine. The browser takes this
//! server for that site then, and hands the page what the server answers. The host of such a request is still that name.

ghost use Rattle.std.specs.Prelude.{◌≡◌, All, length, map};
ghost use Rattle.std.specs.List.{list_all, list_any};
ghost use Rattle.std.specs.Char.{is_ascii_digit};
ghost use Rattle.std.specs.Str.{str_eq_ignore_ascii_case};
ghost use Rattle.httparse.specs.Spans.{IsHeaderWithin, header_bytes};
ghost use Rattle.rme_http.specs.Hosts as spec;
ghost use Rattle.rme_http.specs.Hosts.{is_host, is_no_other_host};

use httparse::spans::HeaderSpan;

/// The name of the field with the host.
const HOST_FIELD: &[u8] = b"host";

/// The hosts that are this machine: its address, its name, and its address of 128 bits.
const LOOPBACK_ADDRESS: &[u8] = b"127.0.0.1";

const LOOPBACK_NAME: &[u8] = b"localhost";

const LONG_LOOPBACK_ADDRESS: &[u8] = b"[::1]";

/// Whether the fields of a request name this machine: one of them is `Host`, and each such field has a name of this
/// machine, with or without a port.
pub(crate) fn name_this_machine(input: &[u8], fields: &[HeaderSpan]) -> bool
    requires { All (IsHeaderWithin (length input.now)) fields.now }
    ensures { result ≡ spec.name_this_machine (map (header_bytes input.now) fields.now) }
{
    if !have_host(input, fields) {
        return false;
    }
    have_no_other_host(input, fields)
}

/// Whether one of the fields is `Host`.
fn have_host(input: &[u8], fields: &[HeaderSpan]) -> bool
    requires { All (IsHeaderWithin (length input.now)) fields.now }
    ensures { result ≡ list_any is_host (map (header_bytes input.now) fields.now) }
{
    for field in fields {
        if is_host_name(field.name.of(input)) {
            return true;
        }
    }
    false
}

/// Whether no field `Host` names another machine.
fn have_no_other_host(input: &[u8], fields: &[HeaderSpan]) -> bool
    requires { All (IsHeaderWithin (length input.now)) fields.now }
    ensures { result ≡ list_all is_no_other_host (map (header_bytes input.now) fields.now) }
{
    for field in fields {
        if is_host_name(field.name.of(input)) && !is_local_host(field.value.of(input)) {
            return false;
        }
    }
    true
}

#[tactic(auto, unfolding(crate::specs::Hosts::is_host_name))]
fn is_host_name(name: &[u8]) -> bool
    ensures { result ≡ spec.is_host_name name.now }
{
    have_same_letters(name, HOST_FIELD)
}

/// Whether a host is this machine.
#[tactic(auto, unfolding(crate::specs::Hosts::is_local_host))]
fn is_local_host(host: &[u8]) -> bool
    ensures { result ≡ spec.is_local_host host.now }
{
    if is_named(LOOPBACK_ADDRESS, host) {
        return true;
    }
    if is_named(LOOPBACK_NAME, host) {
        return true;
    }
    is_named(LONG_LOOPBACK_ADDRESS, host)
}

/// Whether a host is this name, with or without a port.
fn is_named(name: &[u8], host: &[u8]) -> bool
    ensures { result ≡ spec.is_named name.now host.now }
{
    if host.len() < name.len() {
        return false;
    }
    let (front, port) = host.split_at(name.len());
    if !have_same_letters(front, name) {
        return false;
    }
    is_port_part(port)
}

/// Whether two texts are equal but for the case of letters.
fn have_same_letters(first: &[u8], second: &[u8]) -> bool
    ensures { result ≡ str_eq_ignore_ascii_case first.now second.now }
{
    first.eq_ignore_ascii_case(second)
}

/// Whether this is nothing, or a colon and the digits of a port.
fn is_port_part(text: &[u8]) -> bool
    ensures { result ≡ spec.is_port_part text.now }
{
    match text.split_first() {
        Some((first, digits)) => {
            if *first != b':' {
                return false;
            }
            are_digits(digits)
        }
        None => true,
    }
}

fn are_digits(bytes: &[u8]) -> bool
    ensures { result ≡ list_all is_ascii_digit bytes.now }
{
    bytes.iter().all(|byte| byte.is_ascii_digit())
}
