// The kept names of a head, counted at its end: those that no Connection value names.
ghost use Rattle.std.specs.Prelude.{◌≡◌, ◌≤◌};
ghost use Rattle.step_lines.specs.Entries.{entries, names_it, named_in, is_name, worth, count_in};

use messages::lists::has_member;

// Whether an entry is a value of Connection that names a name, which is in lower case.
fn does_name(entry: &[u8], name: &[u8]) -> bool
    ensures { result ≡ names_it name.now entry.now }
{
    match entry {
        [b',', list @ ..] => has_member(list, name),
        _ => false,
    }
}

// Whether one of the entries of a text does.
fn is_named(text: &[u8], name: &[u8]) -> bool
    ensures { result ≡ named_in (entries text.now) name.now }
{
    let mut i = 0;
    while i < text.len() {
        let e = octets::find(text, i, b'\n');
        if does_name(&text[i..e], name) {
            return true;
        }
        i = e + 1;
    }
    false
}

// Whether an entry is a name: a value has a mark in front.
fn is_name(entry: &[u8]) -> bool
    ensures { result ≡ is_name entry.now }
{
    match entry {
        [] | [b',', ..] | [b':', ..] => false,
        _ => true,
    }
}

// One for a name that no entry of the text names.
fn worth_of(text: &[u8], entry: &[u8]) -> usize
    ensures { (result ≡ worth (entries text.now) entry.now) × (result ≤ 1) }
{
    usize::from(is_name(entry) && !is_named(text, entry))
}

// How many names of a text none of its entries names.
pub fn count(text: &[u8]) -> usize
    ensures { result ≡ count_in (entries text.now) (entries text.now) }
{
    let mut i = 0;
    let mut n = 0;
    while i < text.len() {
        let e = octets::find(text, i, b'\n');
        n += worth_of(text, &text[i..e]);
        i = e + 1;
    }
    n
}
