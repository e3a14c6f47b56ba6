// Settings: where the value of a key stands in two sheets, and older sheets kept in the caller's words.
ghost use Rattle.std.specs.Prelude.{◌≡◌};
ghost use Rattle.sheet_store.specs.Store.{added, copied};
ghost use Rattle.store_words.specs.Words.{store_in, next_words};
ghost use Rattle.told.specs.Told.{held_as, copied_as};
ghost use Rattle.jugastilum.specs.Calls.{setting_for};

use answers::Kind;
use settings::SheetRefusal;
use sheet::Key;
use told::Answer;

// Where the value of a key stands: 1 edition, 2 rule, 3 closing. Another key is a value that no sheet has: 9.
#[tactic(auto, unfolding(crate::specs::Calls::setting_for))]
pub fn jug_setting<'a>(local: &'a [u8], shared: &'a [u8], key: u8) -> Answer
    ensures { result ≡ setting_for key local.now shared.now }
{
    let key = match key {
        1 => Key::Edition,
        2 => Key::Rule,
        3 => Key::Closing,
        _ => {
            return SheetRefusal {
                kind: Kind::Value,
                sheet: 0,
                place: 0,
            }
            .into();
        }
    };
    settings::ask(local, shared, key).into()
}

// Keeps a sheet by its own edition.
pub fn jug_keep_sheet(store: &mut [u64; 1040], sheet: &[u8]) -> Answer
    ensures answer { result ≡ held_as (added (store_in store.old) sheet.now).answer }
    ensures words { store.new ≡ next_words store.old (added (store_in store.old) sheet.now) }
{
    store_words::keep_sheet(store, sheet).into()
}

// Copies out the sheet of an edition.
pub fn jug_kept_sheet(store: &[u64; 1040], edition: u64, buffer: &mut [u8]) -> Answer
    ensures answer { result ≡ copied_as (copied (store_in store.now) edition buffer.old).answer }
    ensures buffer { buffer.new ≡ (copied (store_in store.now) edition buffer.old).buffer }
{
    store_words::copy_sheet(store, edition as usize, buffer).into()
}
