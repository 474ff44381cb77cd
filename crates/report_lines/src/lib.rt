// The lines of a visit report, put into a buffer that the caller lends. Each call answers the place after its text, and all of it is there
// where that place is in the buffer.
#![tactic(auto)]

ghost use Rattle.std.specs.Prelude.{◌≤◌, ◌*◌, ◌++◌, pos, ◌-ℤ◌, length};
ghost use Rattle.text.specs.Text.{ascii, decimal, signed};
ghost use Rattle.text.specs.InTurn.{PutInTurn};
ghost use Rattle.report_lines.specs.Columns.{column, counts_text, kinds_text, mean_text, sums_text, record_text, used_text, table_text};
ghost use Rattle.report_lines.specs.Private.{columns};

use stream::{Counts, Record};
use tally::{Kinds, Sums};

// How far the lowest offset is below zero, and the highest above it.
const LOWEST: u64 = 2_147_483_648;

const HIGHEST: u64 = 2_147_483_647;

// A number, and what is put behind it: a space, and behind the last column of a line a line feed.
#[tactic(auto, using(crate::proofs::Lengths::one_longer, text::proofs::Decimals::decimal_length))]
fn put_column(out: &mut [u8], at: usize, n: u64, behind: &[u8; 1]) -> usize
    ensures put_in_turn { PutInTurn out.old at (decimal n ++ behind.now) out.new result }
    ensures n_len_bound { length (decimal n ++ behind.now) ≤ 21 }
{
    let a = text::put_decimal(out, at, n);
    text::put(out, a, behind)
}

// Numbers, each with a space behind it.
fn put_columns(out: &mut [u8], at: usize, numbers: &[u64]) -> usize
    ensures put_in_turn { PutInTurn out.old at (columns numbers.now) out.new result }
    ensures numbers_len_bound { length (columns numbers.now) ≤ 21 * length numbers.now }
{
    let mut end = at;
    for n in numbers {
        end = put_column(out, end, *n, b" ");
    }
    end
}

// a - b, with a minus sign below zero.
fn put_difference(out: &mut [u8], at: usize, a: u64, b: u64) -> usize
    ensures put_in_turn { PutInTurn out.old at (signed (pos a -ℤ pos b)) out.new result }
    ensures b_len_bound { length (signed (pos a -ℤ pos b)) ≤ 21 }
{
    if a < b {
        let m = text::put(out, at, b"-");
        return text::put_decimal(out, m, b - a);
    }
    text::put_decimal(out, at, a - b)
}

fn put_difference_column(out: &mut [u8], at: usize, a: u64, b: u64) -> usize
    ensures put_in_turn { PutInTurn out.old at (column (signed (pos a -ℤ pos b))) out.new result }
    ensures b_len_bound { length (column (signed (pos a -ℤ pos b))) ≤ 22 }
{
    let m = put_difference(out, at, a, b);
    text::put(out, m, b" ")
}

fn put_counts(out: &mut [u8], at: usize, counts: &Counts) -> usize
    ensures put_in_turn { PutInTurn out.old at (counts_text counts.now) out.new result }
    ensures counts_len_bound { length (counts_text counts.now) ≤ 105 }
{
    let numbers = [
        counts.frames as u64,
        counts.sequence_breaks as u64,
        counts.block_breaks as u64,
        counts.format_changes as u64,
        counts.mr_changes as u64,
    ];
    put_columns(out, at, &numbers)
}

fn put_kinds(out: &mut [u8], at: usize, kinds: &Kinds) -> usize
    ensures put_in_turn { PutInTurn out.old at (kinds_text kinds.now) out.new result }
    ensures kinds_len_bound { length (kinds_text kinds.now) ≤ 147 }
{
    let numbers = [
        kinds.none,
        kinds.cut,
        kinds.outside,
        kinds.late,
        kinds.ahead,
        kinds.unclear,
        kinds.far,
    ];
    put_columns(out, at, &numbers)
}

// The sum over its count, and a space.
fn put_mean(out: &mut [u8], at: usize, sum: u64, below: u64, count: u32) -> usize
    ensures put_in_turn { PutInTurn out.old at (column (mean_text (pos sum -ℤ pos below) count)) out.new result }
    ensures count_len_bound { length (column (mean_text (pos sum -ℤ pos below) count)) ≤ 43 }
{
    let a = put_difference(out, at, sum, below);
    let b = text::put(out, a, b"/");
    put_column(out, b, count as u64, b" ")
}

// Smallest, largest, sum and mean.
fn put_sums(out: &mut [u8], at: usize, sums: &Sums) -> usize
    ensures put_in_turn { PutInTurn out.old at (sums_text sums.now) out.new result }
    ensures sums_len_bound { length (sums_text sums.now) ≤ 109 }
{
    if sums.summed == 0 {
        return text::put(out, at, b"none none none none ");
    }
    // how far as many lowest offsets are below zero
    let below = sums.summed as u64 * LOWEST;
    let a = put_difference_column(out, at, HIGHEST, sums.smallest_below as u64);
    let b = put_difference_column(out, a, sums.largest_above as u64, LOWEST);
    let c = put_difference_column(out, b, sums.sum_above, below);
    put_mean(out, c, sums.sum_above, below, sums.summed)
}

fn put_stream(out: &mut [u8], at: usize, r: &Record) -> usize
    ensures put_in_turn { PutInTurn out.old at (record_text r.now) out.new result }
    ensures r_len_bound { length (record_text r.now) ≤ 403 }
{
    let a = put_column(out, at, r.id, b" ");
    let b = put_counts(out, a, &r.counts);
    let c = put_kinds(out, b, &r.tally.kinds);
    let d = put_sums(out, c, &r.tally.sums);
    put_column(out, d, r.tally.sums.unsummed, b"\n")
}

// A record that is not in use has no line.
fn put_used(out: &mut [u8], at: usize, r: &Record) -> usize
    ensures put_in_turn { PutInTurn out.old at (used_text r.now) out.new result }
    ensures r_len_bound { length (used_text r.now) ≤ 403 }
{
    if r.in_use {
        return put_stream(out, at, r);
    }
    at
}

// The lines of a table, at the front of the buffer. They have at most 25,792 bytes.
pub fn put_table(out: &mut [u8], table: &[Record; 64]) -> usize
    ensures put_in_turn { PutInTurn out.old 0 (table_text table.now) out.new result }
    ensures table_len_bound { length (table_text table.now) ≤ 25_792 }
{
    let mut at = 0;
    for r in table {
        at = put_used(out, at, r);
    }
    at
}
