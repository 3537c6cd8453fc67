// Numbers in a file's lines, in decimal: read from its bytes, and put into a buffer.
#![tactic(auto)]

ghost use Rattle.std.specs.Prelude.{◌≡◌, ◌+◌, ◌*◌, ◌≤◌, length, None};
ghost use Rattle.logic.specs.Refusals.{out_of_form};
ghost use Rattle.logic.specs.Answer.{found};
ghost use Rattle.decimal.specs.Decimal.{feed, comma, number_bytes, Put};
ghost use Rattle.number_file.specs.NumberFile.{digit, numbers, file, fields, ReadAs};

use decimal::put_number;
use std::mem::swap;

const FEED: u8 = b'\n';

// The number so far with one byte more. A number is a u32, with no needless zero.
#[tactic(auto, unfolding(crate::specs::NumberFile::digit))]
fn push(so_far: Option<u32>, byte: u8) -> Option<u32>
    ensures { found out_of_form 0 result ≡ digit so_far byte }
{
    if !byte.is_ascii_digit() {
        return None;
    }
    let last = u32::from(byte - b'0');
    match so_far {
        None => Some(last),
        Some(0) => None,
        Some(n) => n.checked_mul(10)?.checked_add(last),
    }
}

// How many numbers these bytes are, put at the front of the words. They end in `first` and in a line feed by turns.
fn read_numbers(bytes: &[u8], first: u8, words: &mut [u32]) -> Option<usize>
    requires { length bytes.now ≤ 2 * length words.old }
    ensures { ReadAs (numbers first feed None bytes.now) words.old words.new result }
{
    let mut this = first;
    let mut other = FEED;
    let mut so_far = None;
    let mut count = 0;
    for &byte in bytes {
        if byte == this {
            words[count] = so_far.take()?;
            count += 1;
            swap(&mut this, &mut other);
        } else {
            so_far = Some(push(so_far, byte)?);
        }
    }
    if so_far.is_some() || other != FEED {
        return None;
    }
    Some(count)
}

// The numbers behind the first line. A number takes two bytes at least.
pub fn read(bytes: &[u8], heading: &[u8], first: u8, words: &mut [u32]) -> Option<usize>
    requires { length bytes.now ≤ 2 * length words.old }
    ensures { ReadAs (file heading.now first bytes.now) words.old words.new result }
{
    let rest = bytes.strip_prefix(heading)?;
    read_numbers(rest, first, words)
}

// Puts a number and a comma, a number and a line feed, and so on.
pub fn put_fields(words: &[u32], out: &mut [u8], to: usize) -> usize
    requires { to + number_bytes * length words.now ≤ length out.old }
    ensures { Put out.old to (fields comma feed words.now) out.new result }
{
    let mut end = to;
    let mut this = b',';
    let mut other = b'\n';
    for &word in words {
        end = put_number(word, this, out, end);
        swap(&mut this, &mut other);
    }
    end
}
