// The entries for C on bundles: answers by value. A refusal alters nothing that is lent.
#![tactic(auto)]

ghost use Rattle.std.specs.Prelude.{◌≡◌, ◌≤◌, length};
ghost use Rattle.output.specs.Splice.{splice, part};
ghost use Rattle.bundle.specs.Bundle.{walk, flock_list};
ghost use Rattle.output.specs.Reply.{writes};
ghost use Rattle.salvaging.specs.Answers.{Salvages};
ghost use Rattle.salvaging.specs.Line.{salvage_line};
ghost use Rattle.flock_table.specs.Table.{totals_answer};
ghost use Rattle.bundle_edit.specs.Append.{append_plan};
ghost use Rattle.bundle_edit.specs.Changes.{changed_from, rebuild_changes};
ghost use Rattle.bundle_edit.specs.Delivery.{mark_plan, sweep_changes};
ghost use Rattle.bundle_capi.specs.Entries.{BundleEntered, list_of, ListEntered, append_of, AppendEntered, outcome_of, RebuildEntered};
ghost use Rattle.bundle_capi.specs.Entries.{mark_of, MarkEntered, SweepEntered};

use bundle::list::flock_list;
use bundle::reader::read_bundle;
use bundle_edit::delivery::{lessen, mark, sweep};
use bundle_edit::tables::{change, rebuild};
use bundle_edit::{Changes, Plan, append, enter};
use flock_table::{Flock, Totals, no_totals, slot_of, totals_of};
use octets::Refusal;
use output::Written;
use salvaging::{Salvaged, salvage, salvage_line};

// What the reader answers: 0, the bundle's length and the number of entries, or a refusal's number and place.
#[repr(C)]
#[derive(Clone, Copy)]
pub struct BundleAnswer {
    pub number: u32,
    pub place: usize,
    pub count: usize,
}

// What the appender answers: 0 and the used length afterwards, or a refusal's number and place and the used length as it was; integers of the message that were
// not in their shortest form, which is 0 for now.
#[repr(C)]
#[derive(Clone, Copy)]
pub struct AppendAnswer {
    pub number: u32,
    pub place: usize,
    pub used: usize,
    pub long: usize,
}

// What a call that changes the table, but for the appender, answers: 0 and the used length afterwards, or a refusal's number and place and the used length as
// it was.
#[repr(C)]
#[derive(Clone, Copy)]
pub struct TableAnswer {
    pub number: u32,
    pub place: usize,
    pub used: usize,
}

// What a list and a line answer: 0 and the length written, or a refusal's number and place.
#[repr(C)]
#[derive(Clone, Copy)]
pub struct ListAnswer {
    pub number: u32,
    pub place: usize,
    pub len: usize,
}

// The first n numbers of src.
fn copy_numbers(out: &mut [u32], src: &[u32], n: usize)
    requires n_in_bounds { n ≤ length out.old }
    requires n_in_bounds_2 { n ≤ length src.now }
    ensures { out.new ≡ splice out.old 0 (part src.now 0 n) }
{
    out[..n].copy_from_slice(&src[..n]);
}

// What C sees of a writer's answer.
impl From<Written> for ListAnswer {
    ghost use Rattle.std.specs.Prelude.{◌≡◌};
    ghost use Rattle.bundle_capi.specs.Entries.{list_of};

    ghost from_gives = { λ w a. a ≡ list_of w };

    fn from(w: Written) -> ListAnswer {
        match w {
            Ok(n) => ListAnswer {
                number: 0,
                place: 0,
                len: n,
            },
            Err(e) => ListAnswer {
                number: e.number,
                place: e.place,
                len: 0,
            },
        }
    }
}

// Each entry's head, and start and length of its message, in order: three numbers an entry.
#[unsafe(no_mangle)]
pub extern "C" fn ospirnar_read_bundle(input: &[u8], entries: &mut [u32]) -> BundleAnswer
    ensures { BundleEntered (walk input.now) entries.old entries.new result }
{
    let b = read_bundle(input);
    if b.number != 0 {
        return BundleAnswer {
            number: b.number,
            place: b.end,
            count: 0,
        };
    }
    let n = b.count * 3;
    if entries.len() < n {
        return BundleAnswer {
            number: Refusal::NoRoom as u32,
            place: 0,
            count: 0,
        };
    }
    copy_numbers(entries, &b.numbers, n);
    BundleAnswer {
        number: 0,
        place: b.end,
        count: b.count,
    }
}

// The octets of one flock's entries, in order: a bundle again.
#[unsafe(no_mangle)]
pub extern "C" fn ospirnar_flock_list(input: &[u8], flock: u32, output: &mut [u8]) -> ListAnswer
    ensures { ListEntered (flock_list flock input.now) output.old output.new result }
{
    ListAnswer::from(flock_list(input, flock, output))
}

// The longest front of whole entries that is a bundle, copied: what is kept of octets that came through whole or not.
#[unsafe(no_mangle)]
pub extern "C" fn ospirnar_salvage(input: &[u8], output: &mut [u8]) -> Salvaged
    ensures { Salvages input.now output.old output.new result }
{
    salvage(input, output)
}

// The line that the salvage program prints for an input.
#[unsafe(no_mangle)]
pub extern "C" fn ospirnar_salvage_line(input: &[u8], output: &mut [u8]) -> ListAnswer
    ensures { ListEntered (writes (salvage_line input.now)) output.old output.new result }
{
    ListAnswer::from(salvage_line(input, output))
}

// What C sees of an append's plan.
impl From<Plan> for AppendAnswer {
    ghost use Rattle.std.specs.Prelude.{◌≡◌};
    ghost use Rattle.bundle_capi.specs.Entries.{append_of};

    ghost from_gives = { λ p a. a ≡ append_of p };

    fn from(p: Plan) -> AppendAnswer {
        AppendAnswer {
            number: p.number,
            place: p.place,
            used: p.used,
            long: p.long,
        }
    }
}

// What C sees of a change of all records.
impl From<Changes> for TableAnswer {
    ghost use Rattle.std.specs.Prelude.{◌≡◌};
    ghost use Rattle.bundle_capi.specs.Entries.{outcome_of};

    ghost from_gives = { λ c a. a ≡ outcome_of c };

    fn from(c: Changes) -> TableAnswer {
        TableAnswer {
            number: c.number,
            place: c.place,
            used: c.used,
        }
    }
}

// What C sees of a mark's plan.
impl From<Plan> for TableAnswer {
    ghost use Rattle.std.specs.Prelude.{◌≡◌};
    ghost use Rattle.bundle_capi.specs.Entries.{mark_of};

    ghost from_gives = { λ p a. a ≡ mark_of p };

    fn from(p: Plan) -> TableAnswer {
        TableAnswer {
            number: p.number,
            place: p.place,
            used: p.used,
        }
    }
}

// From here on each function takes the lent table. All judging and all arithmetic is in what they call.

// Every record, by a change of all.
fn update_all(table: &mut [Flock], c: Changes)
    ensures { table.new ≡ changed_from c 0 table.old }
{
    for i in 0..table.len() {
        table[i] = change(table[i], c, i);
    }
}

// The totals of one flock: its one record.
#[unsafe(no_mangle)]
pub extern "C" fn ospirnar_totals(table: &[Flock], flock: u32) -> Totals
    ensures { result ≡ totals_answer table.now flock }
{
    match slot_of(table.len(), flock) {
        Ok(i) => totals_of(table[i]),
        Err(r) => no_totals(r.number()),
    }
}

// A Binary message behind the bundle that the first `used` octets of the buffer are, as an undelivered entry of the flock, and one entry more in its record.
#[unsafe(no_mangle)]
pub extern "C" fn ospirnar_append(
    table: &mut [Flock],
    buffer: &mut [u8],
    used: usize,
    flock: u32,
    message: &[u8],
) -> AppendAnswer
    ensures { AppendEntered (append_plan (length table.old) buffer.old used flock message.now)
        table.old table.new buffer.old buffer.new used flock message.now result }
{
    let p = append(table.len(), buffer, used, flock, message);
    if let Some(i) = p.index {
        table[i] = enter(table[i], p.size);
    }
    AppendAnswer::from(p)
}

// The table of a bundle.
#[unsafe(no_mangle)]
pub extern "C" fn ospirnar_rebuild(table: &mut [Flock], input: &[u8]) -> TableAnswer
    ensures { RebuildEntered (rebuild_changes (length table.old) input.now) table.old table.new result }
{
    let c = rebuild(table.len(), input);
    update_all(table, c);
    TableAnswer::from(c)
}

// An entry is delivered from now on, and its flock has one undelivered entry less.
#[unsafe(no_mangle)]
pub extern "C" fn ospirnar_mark(
    table: &mut [Flock],
    buffer: &mut [u8],
    used: usize,
    entry: usize,
) -> TableAnswer
    ensures { MarkEntered (mark_plan (length table.old) buffer.old used entry)
        table.old table.new buffer.old buffer.new used entry result }
{
    let p = mark(table.len(), buffer, used, entry);
    if let Some(i) = p.index {
        table[i] = lessen(table[i]);
    }
    TableAnswer::from(p)
}

// The delivered entries are swept out of the bundle, and taken off the table.
#[unsafe(no_mangle)]
pub extern "C" fn ospirnar_sweep(table: &mut [Flock], buffer: &mut [u8], used: usize) -> TableAnswer
    ensures { SweepEntered (sweep_changes (length table.old) buffer.old used)
        table.old table.new buffer.old buffer.new used result }
{
    let c = sweep(table.len(), buffer, used);
    update_all(table, c);
    TableAnswer::from(c)
}
