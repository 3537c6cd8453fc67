// Prints each home of a list with its survey code, from the files `homes` and `surveys` in the folder where it runs.
#![tactic(auto)]

pub mod print;

ghost use Rattle.std.specs.Prelude.{◌≤◌, length, IfSome};

use print::{ROOM, list_bytes, print, table_bytes};
use std::fs::File;
use std::io::Read;

// Reads into the buffer until it is full, the file ends or a read fails, and gives how many bytes it read. The library's
// `read_to_end` needs a heap, and `read_exact` takes no file that is shorter than the buffer.
fn fill(file: &mut File, buffer: &mut [u8]) -> usize
    ensures { result ≤ length buffer.new }
{
    let mut bytes = 0;
    while bytes < buffer.len() {
        match file.read(&mut buffer[bytes..]) {
            Ok(0) | Err(_) => break,
            Ok(got) => bytes += got,
        }
    }
    bytes
}

// A file's bytes, as many as the buffer holds. A file that is read to its end gives 0 at one read more. One that does
// not, because it is longer or because a read failed, is taken as one that is not there: what was read of it is no
// shorter file.
fn load<'a>(rt: &HostRuntime, path: &str, buffer: &'a mut [u8]) -> Option<&'a [u8]>
    ensures { IfSome result (λ bytes. length bytes.now ≤ length buffer.old) }
{
    let mut file = File::open(rt, path).ok()?;
    let bytes = fill(&mut file, buffer);
    match file.read(&mut [0]) {
        Ok(0) => Some(&buffer[..bytes]),
        _ => None,
    }
}

fn main(rt: HostRuntime) {
    let mut list = list_bytes();
    let mut table = table_bytes();
    let homes = load(&rt, "homes", &mut list);
    let surveys = load(&rt, "surveys", &mut table);
    let mut out = [0; ROOM];
    let end = print(homes, surveys, &mut out);
    io::write_all(1, &out[..end]);
}
