// The static library for C on bundles (include/ospirnar.h): each entry of the crate `bundle_capi`, exported. Each only calls the entry of its name, and states
// its clauses again.

#![tactic(auto)]

ghost use Rattle.std.specs.Prelude.{◌≡◌, length};
ghost use Rattle.bundle.specs.Bundle.{walk, flock_list};
ghost use Rattle.output.specs.Reply.{writes};
ghost use Rattle.salvaging.specs.Answers.{Salvages};
ghost use Rattle.salvaging.specs.Line.{salvage_line};
ghost use Rattle.flock_table.specs.Table.{totals_answer};
ghost use Rattle.bundle_edit.specs.Append.{append_plan};
ghost use Rattle.bundle_edit.specs.Changes.{rebuild_changes};
ghost use Rattle.bundle_edit.specs.Delivery.{mark_plan, sweep_changes};
ghost use Rattle.bundle_capi.specs.Entries.{BundleEntered, ListEntered, AppendEntered, RebuildEntered};
ghost use Rattle.bundle_capi.specs.Entries.{MarkEntered, SweepEntered};

use bundle_capi::{AppendAnswer, BundleAnswer, ListAnswer, TableAnswer};
use flock_table::{Flock, Totals};
use salvaging::Salvaged;

// Each entry's head, and start and length of its message, in order: three numbers an entry.
#[unsafe(no_mangle)]
pub extern "C" fn ospirnar_read_bundle(input: &[u8], entries: &mut [u32]) -> BundleAnswer
    ensures { BundleEntered (walk input.now) entries.old entries.new result }
{
    bundle_capi::ospirnar_read_bundle(input, entries)
}

// The octets of one flock's entries, in order: a bundle again.
#[unsafe(no_mangle)]
pub extern "C" fn ospirnar_flock_list(input: &[u8], flock: u32, output: &mut [u8]) -> ListAnswer
    ensures { ListEntered (flock_list flock input.now) output.old output.new result }
{
    bundle_capi::ospirnar_flock_list(input, flock, output)
}

// The longest front of whole entries that is a bundle, copied: what is kept of octets that came through whole or not.
#[unsafe(no_mangle)]
pub extern "C" fn ospirnar_salvage(input: &[u8], output: &mut [u8]) -> Salvaged
    ensures { Salvages input.now output.old output.new result }
{
    bundle_capi::ospirnar_salvage(input, output)
}

// The line that the salvage program prints for an input.
#[unsafe(no_mangle)]
pub extern "C" fn ospirnar_salvage_line(input: &[u8], output: &mut [u8]) -> ListAnswer
    ensures { ListEntered (writes (salvage_line input.now)) output.old output.new result }
{
    bundle_capi::ospirnar_salvage_line(input, output)
}

// The totals of one flock: its one record.
#[unsafe(no_mangle)]
pub extern "C" fn ospirnar_totals(table: &[Flock], flock: u32) -> Totals
    ensures { result ≡ totals_answer table.now flock }
{
    bundle_capi::ospirnar_totals(table, flock)
}

// A Binary message behind the bundle that the first `used` octets of the buffer are, as an undelivered entry of the flock, and one entry more in its record.
#[unsafe(no_mangle)]
pub extern "C" fn ospirnar_append(
    table: &mut [Flock],
    buffer: &mut [u8],
    used: usize,
    flock: u32,
    message: &[u8],
) -> AppendAnswer
    ensures { AppendEntered (append_plan (length table.old) buffer.old used flock message.now)
        table.old table.new buffer.old buffer.new used flock message.now result }
{
    bundle_capi::ospirnar_append(table, buffer, used, flock, message)
}

// The table of a bundle.
#[unsafe(no_mangle)]
pub extern "C" fn ospirnar_rebuild(table: &mut [Flock], input: &[u8]) -> TableAnswer
    ensures { RebuildEntered (rebuild_changes (length table.old) input.now) table.old table.new result }
{
    bundle_capi::ospirnar_rebuild(table, input)
}

// An entry is delivered from now on, and its flock has one undelivered entry less.
#[unsafe(no_mangle)]
pub extern "C" fn ospirnar_mark(
    table: &mut [Flock],
    buffer: &mut [u8],
    used: usize,
    entry: usize,
) -> TableAnswer
    ensures { MarkEntered (mark_plan (length table.old) buffer.old used entry)
        table.old table.new buffer.old buffer.new used entry result }
{
    bundle_capi::ospirnar_mark(table, buffer, used, entry)
}

// The delivered entries are swept out of the bundle, and taken off the table.
#[unsafe(no_mangle)]
pub extern "C" fn ospirnar_sweep(table: &mut [Flock], buffer: &mut [u8], used: usize) -> TableAnswer
    ensures { SweepEntered (sweep_changes (length table.old) buffer.old used)
        table.old table.new buffer.old buffer.new used result }
{
    bundle_capi::ospirnar_sweep(table, buffer, used)
}
