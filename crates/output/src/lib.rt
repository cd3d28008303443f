// Writers into lent octets. Each writes all or nothing, and answers with the place behind what it wrote.
#![tactic(auto)]

ghost use Rattle.std.specs.Prelude.{◌≡◌, [], ◌∷◌, map, ◌+◌, ◌≤◌, ◌<◌, leb, length};
ghost use Rattle.octets.specs.Text.{lower_of};
ghost use Rattle.numbers.specs.Integer.{integer_end, int_len, int_bytes};
ghost use Rattle.numbers.specs.Digits.{char_of, count_of, digits};
ghost use Rattle.output.specs.Splice.{part, lies_within, may_copy, Put, PutIf};

use numbers::{digit_count, int_len, int_tag};
use octets::{Refused, lower};

// What a public writer answers: so many octets are written, or nothing is.
pub type Written = Result<usize, Refused>;

// The digit of a value below 16.
fn digit_char(d: usize) -> u8
    requires { d < 16 }
    ensures { result ≡ char_of d }
{
    if d < 10 {
        (d + 48) as u8
    } else {
        (d + 87) as u8
    }
}

// So many octets of the source, from a place on, where both have them. (One by one: a copy of a slice of any length would be memmove, which the archives for C don't ask
// for.)
fn copy_part(out: &mut [u8], at: usize, src: &[u8], from: usize, len: usize) -> usize
    requires len_in_bounds { at + len ≤ length out.old }
    requires len_in_bounds_2 { from + len ≤ length src.now }
    ensures { Put out.old at (part src.now from len) len out.new result }
{
    for i in 0..len {
        out[at + i] = src[from + i];
    }
    at + len
}

// The same in lower case.
fn copy_lower(out: &mut [u8], at: usize, src: &[u8], from: usize, len: usize) -> usize
    requires len_in_bounds { at + len ≤ length out.old }
    requires len_in_bounds_2 { from + len ≤ length src.now }
    ensures { Put out.old at (map lower_of (part src.now from len)) len out.new result }
{
    for i in 0..len {
        out[at + i] = lower(src[from + i]);
    }
    at + len
}

// The shortest form of an integer, of n octets, its last octet first.
fn lay_int(out: &mut [u8], at: usize, v: usize, n: usize) -> usize
    requires { (v < integer_end) × (n ≡ int_len v) × (at + n ≤ length out.old) }
    ensures { Put out.old at (int_bytes v) (int_len v) out.new result }
{
    let mut w = v + int_tag(v);
    for k in (0..n).rev() {
        out[at + k] = (w % 256) as u8;
        w /= 256;
    }
    at + n
}

// The k digits of n, its last first.
fn lay_digits(out: &mut [u8], at: usize, n: usize, base: usize, k: usize) -> usize
    requires { (2 ≤ base) × (base ≤ 16) × (k ≡ count_of base n) × (at + k ≤ length out.old) }
    ensures { Put out.old at (digits base n) (count_of base n) out.new result }
{
    let mut w = n;
    for j in (0..k).rev() {
        out[at + j] = digit_char(w % base);
        w /= base;
    }
    at + k
}

// The digits of n.
fn put_digits(out: &mut [u8], at: usize, n: usize, base: usize) -> usize
    requires le_base { 2 ≤ base }
    requires base_bound { base ≤ 16 }
    ensures { PutIf (lies_within out.old at (count_of base n)) out.old at (digits base n) (count_of base n) out.new result }
{
    let k = digit_count(n, base);
    if lies_within(out.len(), at, k) {
        return lay_digits(out, at, n, base, k);
    }
    at
}

// Whether n octets from the place `at` on lie within `size` octets.
fn lies_within(size: usize, at: usize, n: usize) -> bool
    ensures { result ≡ leb (at + n) size }
{
    at <= size && n <= size - at
}

// One octet.
pub fn put_octet(out: &mut [u8], at: usize, b: u8) -> usize
    ensures { PutIf (lies_within out.old at 1) out.old at (b ∷ []) 1 out.new result }
{
    if at < out.len() {
        out[at] = b;
        return at + 1;
    }
    at
}

// So many octets of the source, from a place on; nothing where the source has not so many.
pub fn put_part(out: &mut [u8], at: usize, src: &[u8], from: usize, len: usize) -> usize
    ensures { PutIf (may_copy src.now from len out.old at) out.old at
        (part src.now from len) len out.new result }
{
    if lies_within(src.len(), from, len) && lies_within(out.len(), at, len) {
        return copy_part(out, at, src, from, len);
    }
    at
}

// The same in lower case.
pub fn put_lower(out: &mut [u8], at: usize, src: &[u8], from: usize, len: usize) -> usize
    ensures { PutIf (may_copy src.now from len out.old at) out.old at
        (map lower_of (part src.now from len)) len out.new result }
{
    if lies_within(src.len(), from, len) && lies_within(out.len(), at, len) {
        return copy_lower(out, at, src, from, len);
    }
    at
}

// A whole text.
pub fn put_text(out: &mut [u8], at: usize, text: &[u8]) -> usize
    ensures { PutIf (lies_within out.old at (length text.now)) out.old at
        text.now (length text.now) out.new result }
{
    if lies_within(out.len(), at, text.len()) {
        return copy_part(out, at, text, 0, text.len());
    }
    at
}

// The shortest form of an integer; nothing where it has none.
pub fn put_int(out: &mut [u8], at: usize, v: usize) -> usize
    ensures { PutIf (lies_within out.old at (int_len v)) out.old at (int_bytes v) (int_len v) out.new result }
{
    let n = int_len(v);
    if n == 0 {
        return at;
    }
    if lies_within(out.len(), at, n) {
        return lay_int(out, at, v, n);
    }
    at
}

// A number in decimal digits.
pub fn put_decimal(out: &mut [u8], at: usize, n: usize) -> usize
    ensures { PutIf (lies_within out.old at (count_of 10 n)) out.old at (digits 10 n) (count_of 10 n) out.new result }
{
    put_digits(out, at, n, 10)
}

// The same in hexadecimal digits.
pub fn put_hexadecimal(out: &mut [u8], at: usize, n: usize) -> usize
    ensures { PutIf (lies_within out.old at (count_of 16 n)) out.old at (digits 16 n) (count_of 16 n) out.new result }
{
    put_digits(out, at, n, 16)
}
