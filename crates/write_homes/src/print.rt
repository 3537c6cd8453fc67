// What is printed: the writing step on two files' bytes.
ghost use Rattle.std.specs.Prelude.{◌+◌, ◌*◌, ◌≤◌, ◌≡◌, length};
ghost use Rattle.decimal.specs.Decimal.{Put};
ghost use Rattle.homes.specs.Homes.{most_homes};
ghost use Rattle.write_homes.specs.Printed.{most_list, most_table, output_room, given, written_homes, Stepped, printed};

use decimal::{NUMBER_BYTES, put};
use homes::{MOST_HOMES, MOST_ROWS, write};
use number_file::{put_fields, read};

// The longest files in form: a first line, and the numbers with a byte behind each.
const MOST_LIST: usize = 5 + NUMBER_BYTES * MOST_HOMES;

const MOST_TABLE: usize = 10 + NUMBER_BYTES * (2 * MOST_ROWS);

// The numbers that they can hold, if each takes two bytes only.
const LIST_NUMBERS: usize = MOST_LIST / 2 + 1;

const TABLE_NUMBERS: usize = MOST_TABLE / 2 + 1;

const OUTPUT_WORDS: usize = 2 * MOST_HOMES;

// Room for the longest output.
pub const ROOM: usize = 10 + NUMBER_BYTES * OUTPUT_WORDS;

// One byte more than the longest files in form have, so that a longer one is seen.
pub fn list_bytes() -> [u8; MOST_LIST + 1]
    ensures { most_list + 1 ≡ length result }
{
    [0; MOST_LIST + 1]
}

pub fn table_bytes() -> [u8; MOST_TABLE + 1]
    ensures { most_table + 1 ≡ length result }
{
    [0; MOST_TABLE + 1]
}

// The writing step on the two files' bytes, if they are there and in form: how many words it wrote.
fn step(list: Option<&[u8]>, table: Option<&[u8]>, words: &mut [u32]) -> Option<usize>
    requires { 2 * most_homes ≡ length words.old }
    ensures { Stepped (written_homes (given list.entry) (given table.entry)) words.old words.new result }
{
    let (list, table) = (list?, table?);
    if MOST_LIST < list.len() || MOST_TABLE < table.len() {
        return None;
    }
    let mut homes = [0; LIST_NUMBERS];
    let n = read(list, b"home\n", b'\n', &mut homes)?;
    let mut surveys = [0; TABLE_NUMBERS];
    let m = read(table, b"home,code\n", b',', &mut surveys)?;
    write(&homes[..n], &surveys[..m], words).ok()?;
    Some(2 * n)
}

// The writing step on the two files' bytes, if they are there, printed.
pub fn print(list: Option<&[u8]>, table: Option<&[u8]>, out: &mut [u8]) -> usize
    requires { output_room ≤ length out.old }
    ensures { Put out.old 0 (printed (given list.entry) (given table.entry)) out.new result }
{
    let mut words = [0; OUTPUT_WORDS];
    let Some(n) = step(list, table, &mut words) else {
        return put(b"refused,21\n", out, 0);
    };
    let to = put(b"home,code\n", out, 0);
    put_fields(&words[..n], out, to)
}
