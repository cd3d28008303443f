// The target of a request line. What a promise says of a lent table is given that it is the one of `octets::class_table`.
ghost use Rattle.std.specs.Prelude.{◌≡◌, ◌+◌, ◌-◌, ◌≤◌, length, drop};
ghost use Rattle.octets.specs.Table.{classes};
ghost use Rattle.octets.specs.Text.{span_len};
ghost use Rattle.http1_lines.specs.Target.{plain_target, starts_with, scheme_len, is_before_path, prefix_of, absolute_path, absolute_target, target_of};

use super::Target;
use messages::PathPrefix;
use messages::parts::{is_host, path_verdict, prefix_len};
use octets::{Class, Limits, Refusal, all_of, same};

// A target that is a path alone.
fn plain_target(t: &[u8; 256], options: bool, w: &[u8]) -> Result<Target, Refusal>
    ensures { t.now ≡ classes → result ≡ plain_target options w.now }
{
    path_verdict(t, options, w)?;
    Ok(Target {
        prefix: PathPrefix::Nothing,
        start: 0,
        len: w.len(),
        host: 0,
        hostlen: 0,
    })
}

// Whether a scheme with its "://" stands at the front.
fn starts_with(scheme: &[u8], w: &[u8]) -> bool
    ensures { result ≡ starts_with scheme.now w.now }
{
    let n = scheme.len();
    if n <= w.len() {
        return same(&w[..n], scheme);
    }
    false
}

// How many octets a scheme takes with its "://".
fn scheme_len(w: &[u8]) -> usize
    ensures { (result ≡ scheme_len w.now) × (result ≤ length w.now) }
{
    if starts_with(b"http://", w) {
        return 7;
    }
    if starts_with(b"https://", w) {
        return 8;
    }
    0
}

// Whether an octet may stand between "://" and the path or the query: any but a slash and a question mark.
#[tactic(auto, unfolding(crate::specs::Target::is_before_path))]
fn is_before_path(b: u8) -> bool
    ensures { result ≡ is_before_path b }
{
    b != b'/' && b != b'?'
}

// The place of the first slash or question mark from `from` on, or the end.
fn authority_end(w: &[u8], from: usize) -> usize
    requires { from ≤ length w.now }
    ensures { (result ≡ from + span_len is_before_path (drop from w.now)) × (result ≤ length w.now) × (from ≤ result) }
{
    for i in from..w.len() {
        if !is_before_path(w[i]) {
            return i;
        }
    }
    w.len()
}

// What is put before the path's own octets, which stand from e on.
fn prefix_of(options: bool, w: &[u8], e: usize) -> PathPrefix
    requires { e ≤ length w.now }
    ensures { result ≡ prefix_of options (drop e w.now) }
{
    if e < w.len() {
        if w[e] == b'/' {
            return PathPrefix::Nothing;
        }
        return PathPrefix::Slash;
    }
    if options {
        return PathPrefix::Asterisk;
    }
    PathPrefix::Slash
}

// The path of an absolute target, and its scheme of k octets; the authority ends at e.
fn absolute_path(
    scheme: u32,
    options: bool,
    w: &[u8],
    k: usize,
    e: usize,
) -> Result<Target, Refusal>
    requires { (7 ≤ k) × (k ≤ e) × (e ≤ length w.now) }
    ensures { result ≡ absolute_path scheme options w.now k e }
{
    let prefix = prefix_of(options, w, e);
    let len = w.len() - e;
    if len <= Limits::PATH - prefix_len(prefix) {
        if k - 7 == scheme as usize {
            return Ok(Target {
                prefix,
                start: e,
                len,
                host: k,
                hostlen: e - k,
            });
        }
        return Err(Refusal::OtherScheme);
    }
    Err(Refusal::TooLarge)
}

// An absolute target whose scheme takes k octets.
fn absolute_target(
    t: &[u8; 256],
    scheme: u32,
    options: bool,
    w: &[u8],
    k: usize,
) -> Result<Target, Refusal>
    requires { (7 ≤ k) × (k ≤ length w.now) }
    ensures { t.now ≡ classes → result ≡ absolute_target scheme options w.now k }
{
    if all_of(t, w, Class::PATH) {
        let e = authority_end(w, k);
        if is_host(t, &w[k..e]) {
            return absolute_path(scheme, options, w, k, e);
        } else {
            return Err(Refusal::BadHost);
        }
    }
    Err(Refusal::BadSyntax)
}

// A target on a connection of the scheme told; `options` says whether the method is OPTIONS.
pub(crate) fn request_target(
    t: &[u8; 256],
    scheme: u32,
    options: bool,
    w: &[u8],
) -> Result<Target, Refusal>
    ensures { t.now ≡ classes → result ≡ target_of scheme options w.now }
{
    let k = scheme_len(w);
    if k == 0 {
        return plain_target(t, options, w);
    }
    absolute_target(t, scheme, options, w, k)
}
