// Words without the names that they carry.
ghost use Rattle.std.specs.Prelude.{◌≡◌, map, ◌≤◌, length};
ghost use Rattle.words.specs.Place.{written_at};
ghost use Rattle.editions.specs.Edition.{unnamed as unnamed_word};

use editions::Edition;
use logic::word::{PAYLOADS, binds, tag_of};

// A word without the name that it carries as a binder.
pub fn unnamed(edition: Edition, word: u32) -> u32
    ensures { result ≡ unnamed_word edition word }
{
    match edition {
        Edition::Counts => word,
        Edition::Names => {
            let bare = tag_of(word) * PAYLOADS;
            if binds(bare) { bare } else { word }
        }
    }
}

// Writes the words without their names to the front of out.
pub fn unnamed_words(edition: Edition, words: &[u32], out: &mut [u32])
    requires { length words.now ≤ length out.old }
    ensures { out.new ≡ written_at out.old 0 (map (unnamed_word edition) words.now) }
{
    for i in 0..words.len() {
        out[i] = unnamed(edition, words[i]);
    }
}
