// A store as a C program keeps it: 1,040 words of 64 bits. Word 0 is the count, words 1 to 8 are the lengths, and from word 9 on each sheet has 128 words of eight bytes, the first the least.
// The last seven words are not used. All zero is the empty store. Any words are a store: reading them is total.
#![tactic(auto)]

ghost use Rattle.std.specs.Prelude.{◌≡◌, ◌<◌};
ghost use Rattle.sheet_store.specs.Store.{added, copied};
ghost use Rattle.store_words.specs.Words.{next_words, byte_of, packed, kept_in, store_in, word_of, words_of};

use settings::SheetRefusal;
use sheet_store::{Added, Kept, Length, Sheets, Store};
use std::array;

// Byte k of a word.
#[tactic(auto, using(crate::proofs::Bytes::byte_is))]
fn byte_of(word: u64, k: usize) -> u8
    requires { k < 8 }
    ensures { result ≡ byte_of word k }
{
    word.to_le_bytes()[k]
}

// Sheet i of a store in words.
fn kept_at(words: &[u64; 1040], i: usize) -> Kept
    requires { i < 8 }
    ensures { result ≡ kept_in words.now i }
{
    Kept {
        len: words[1 + i] as usize,
        bytes: array::from_fn(|j| byte_of(words[9 + 128 * i + j / 8], j % 8)),
    }
}

// The store that the words are.
#[tactic(auto, unfolding(crate::specs::Words::store_in))]
pub fn store_of(words: [u64; 1040]) -> Store
    ensures { result ≡ store_in words }
{
    Store {
        count: words[0] as usize,
        sheets: [
            kept_at(&words, 0),
            kept_at(&words, 1),
            kept_at(&words, 2),
            kept_at(&words, 3),
            kept_at(&words, 4),
            kept_at(&words, 5),
            kept_at(&words, 6),
            kept_at(&words, 7),
        ],
    }
}

// Word k of a sheet's bytes, the first of them the least.
#[tactic(auto, unfolding(crate::specs::Words::packed, crate::specs::Words::pack_from))]
fn word_at(bytes: &[u8; 1024], k: usize) -> u64
    requires { k < 128 }
    ensures { result ≡ packed bytes.now k }
{
    u64::from_le_bytes(array::from_fn(|i| bytes[8 * k + i]))
}

// Word p of a store, which is lent: handed over by value it would be copied for each word.
#[tactic(auto, unfolding(crate::specs::Words::word_of))]
fn word_of(store: &Store, p: usize) -> u64
    ensures { result ≡ word_of store.now p }
{
    match p {
        0 => store.count as u64,
        1..9 => store.sheets[p - 1].len as u64,
        9..1033 => word_at(&store.sheets[(p - 9) / 128].bytes, (p - 9) % 128),
        _ => 0,
    }
}

// The words of a store.
pub fn words_of(store: Store) -> [u64; 1040]
    ensures { result ≡ words_of store }
{
    array::from_fn(|p| word_of(&store, p))
}

// The words after an answer: those of the new store where the sheet is kept, the old ones where it is refused.
#[tactic(auto, unfolding(crate::specs::Words::next_words))]
fn next_words(words: [u64; 1040], made: Added) -> [u64; 1040]
    ensures { result ≡ next_words words made }
{
    match made.answer {
        Ok(_) => words_of(made.store),
        Err(_) => words,
    }
}

// Keeps a sheet in a store that is lent as words, which stay as they are where the sheet is refused.
pub fn keep_sheet(store: &mut [u64; 1040], sheet: &[u8]) -> Result<Sheets, SheetRefusal>
    ensures answer { result ≡ (added (store_in store.old) sheet.now).answer }
    ensures words { store.new ≡ next_words store.old (added (store_in store.old) sheet.now) }
{
    let made = sheet_store::add(store_of(*store), sheet);
    *store = next_words(*store, made);
    made.answer
}

// Copies the sheet of an edition out of a store that is lent as words.
pub fn copy_sheet(
    store: &[u64; 1040],
    edition: usize,
    buffer: &mut [u8],
) -> Result<Length, SheetRefusal>
    ensures answer { result ≡ (copied (store_in store.now) edition buffer.old).answer }
    ensures buffer { buffer.new ≡ (copied (store_in store.now) edition buffer.old).buffer }
{
    sheet_store::copy_out(store_of(*store), edition, buffer)
}
