// Up to eight older sheets, kept by their own edition numbers, the oldest first.
#![tactic(auto)]

ghost use Rattle.std.specs.Prelude.{◌≡◌, ◌≤◌, ◌<◌, length, take};
ghost use Rattle.std.specs.List.{position};
ghost use Rattle.sheet_store.specs.Store.{overfull_of, edition_in, is_edition, kept_of, dropped, pushed, newest_of, refused_as, held_as, added_by, added, no_copy, copied_kept, copied};

use answers::Kind;
use settings::SheetRefusal;

// A kept sheet: its length, and its bytes from the start.
#[derive(Clone, Copy)]
pub struct Kept {
    pub len: usize,
    pub bytes: [u8; 1024],
}

// How many sheets are kept, and they, from the oldest on.
#[derive(Clone, Copy)]
pub struct Store {
    pub count: usize,
    pub sheets: [Kept; 8],
}

impl Kept {
    // The most bytes of a sheet.
    pub const MAX: usize = 1024;
}

impl Store {
    // The most sheets.
    pub const MAX: usize = 8;

    pub const EMPTY: Store = Store {
        count: 0,
        sheets: [Kept {
            len: 0,
            bytes: [0; 1024],
        }; 8],
    };
}

// How many sheets are kept.
#[derive(Clone, Copy)]
pub struct Sheets {
    pub count: usize,
}

// The answer of add, and the store after it.
#[derive(Clone, Copy)]
pub struct Added {
    pub answer: Result<Sheets, SheetRefusal>,
    pub store: Store,
}

// How many bytes a sheet has.
#[derive(Clone, Copy)]
pub struct Length {
    pub bytes: usize,
}

// Whether a store counts more than it may: more than eight sheets, or a sheet of more than 1,024 bytes. No call makes such a store, but any may be handed in.
#[tactic(auto, using(crate::proofs::Searches::overfull_by_count, crate::proofs::Searches::overfull_by_any))]
fn overfull(store: Store) -> bool
    ensures { result ≡ overfull_of store }
{
    Store::MAX < store.count
        || store.sheets[..store.count]
            .iter()
            .any(|kept| Kept::MAX < kept.len)
}

// The edition number of a kept sheet; 0 where it is no sheet or names none.
#[tactic(auto, unfolding(crate::specs::Store::edition_in))]
fn edition_of(kept: Kept) -> usize
    ensures { result ≡ edition_in kept }
{
    if Kept::MAX < kept.len {
        return 0;
    }
    match sheet::scan_sheet(&kept.bytes[..kept.len]) {
        Ok(lines) => lines.number,
        Err(_) => 0,
    }
}

// A sheet of at most 1,024 bytes as it is kept: zeros behind its bytes.
#[tactic(auto, unfolding(crate::specs::Store::kept_of))]
fn keep(sheet: &[u8]) -> Kept
    requires { length sheet.now ≤ 1024 }
    ensures { result ≡ kept_of sheet.now }
{
    let mut bytes = [0; 1024];
    bytes[..sheet.len()].copy_from_slice(sheet);
    Kept {
        len: sheet.len(),
        bytes,
    }
}

// The sheets without the oldest; the last place is free.
#[tactic(auto, unfolding(crate::specs::Store::dropped))]
fn drop_oldest(store: Store) -> Store
    ensures { result ≡ dropped store }
{
    let mut sheets = store.sheets;
    sheets.copy_within(1.., 0);
    Store { count: 7, sheets }
}

// The store with one sheet more, where there is room.
#[tactic(auto, unfolding(crate::specs::Store::pushed))]
fn push(store: Store, kept: Kept) -> Store
    requires { store.count < 8 }
    ensures { result ≡ pushed store kept }
{
    let mut sheets = store.sheets;
    sheets[store.count] = kept;
    Store {
        count: store.count + 1,
        sheets,
    }
}

// The newest edition, 0 where the store is empty.
#[tactic(auto, unfolding(crate::specs::Store::newest_of))]
fn newest(store: Store) -> usize
    requires { store.count ≤ 8 }
    ensures { result ≡ newest_of store }
{
    if store.count == 0 {
        return 0;
    }
    edition_of(store.sheets[store.count - 1])
}

// A refusal leaves the store as it is.
fn refuse(store: Store, kind: Kind, sheet: u8, place: usize) -> Added
    ensures { result ≡ refused_as kind sheet place store }
{
    Added {
        answer: Err(SheetRefusal { kind, sheet, place }),
        store,
    }
}

// A sheet was kept: the answer is how many there are now.
fn accept(store: Store) -> Added
    ensures { result ≡ held_as store }
{
    Added {
        answer: Ok(Sheets { count: store.count }),
        store,
    }
}

// A sheet of which the edition's number is known, 0: none.
#[tactic(auto, using(std::proofs::lemmas::Grind::common_steps), unfolding(crate::specs::Store::added_by, crate::specs::Store::dropped))]
fn add_edition(store: Store, sheet: &[u8], number: usize) -> Added
    requires { (store.count ≤ 8) × (length sheet.now ≤ 1024) }
    ensures { result ≡ added_by store sheet.now number }
{
    if number == 0 {
        return refuse(store, Kind::NoKey, 0, 0);
    }
    if number <= newest(store) {
        return refuse(store, Kind::NotNewer, 0, 0);
    }
    if store.count == Store::MAX {
        return accept(push(drop_oldest(store), keep(sheet)));
    }
    accept(push(store, keep(sheet)))
}

// Keeps a sheet. Refused by 9 if the store counts more than it may, 18 (sheet 1), 17 without an edition, 19 where the newest is not older; of eight the oldest goes.
// With a refusal the store comes back as it was.
#[tactic(auto, using(crate::specs::Laws::scan_short, crate::specs::Laws::fits_count, std::proofs::lemmas::Grind::common_steps), unfolding(crate::specs::Store::added))]
pub fn add(store: Store, sheet: &[u8]) -> Added
    ensures { result ≡ added store sheet.now }
{
    if overfull(store) {
        return refuse(store, Kind::Value, 0, 0);
    }
    match sheet::scan_sheet(sheet) {
        Err(place) => refuse(store, Kind::SheetText, 1, place),
        Ok(lines) => add_edition(store, sheet, lines.number),
    }
}

// The place of the first kept sheet of that edition.
fn find(store: Store, edition: usize) -> Option<usize>
    requires { store.count ≤ 8 }
    ensures { result ≡ position (is_edition edition) (take store.count store.sheets) }
{
    store.sheets[..store.count]
        .iter()
        .position(|kept| edition_of(*kept) == edition)
}

// A refusal of copying out.
fn no_copy(kind: Kind) -> Result<Length, SheetRefusal>
    ensures { result ≡ no_copy kind }
{
    Err(SheetRefusal {
        kind,
        sheet: 0,
        place: 0,
    })
}

// A kept sheet into a buffer that may be too short.
fn copy_kept(kept: Kept, buffer: &mut [u8]) -> Result<Length, SheetRefusal>
    requires { kept.len ≤ 1024 }
    ensures answer { result ≡ (copied_kept kept buffer.old).answer }
    ensures buffer { buffer.new ≡ (copied_kept kept buffer.old).buffer }
{
    if buffer.len() < kept.len {
        return no_copy(Kind::Room);
    }
    buffer[..kept.len].copy_from_slice(&kept.bytes[..kept.len]);
    Ok(Length { bytes: kept.len })
}

// Copies out the sheet of an edition. Refused by 9 if the store counts more than it may, 20 if that edition is not kept, 11 if the buffer is shorter than the sheet.
#[tactic(auto, using(crate::specs::Laws::fits_count, crate::proofs::Searches::found_sheet, crate::proofs::Searches::sheet_fits, crate::proofs::Searches::found_none, std::proofs::lemmas::Grind::common_steps), unfolding(crate::specs::Store::copied))]
pub fn copy_out(store: Store, edition: usize, buffer: &mut [u8]) -> Result<Length, SheetRefusal>
    ensures answer { result ≡ (copied store edition buffer.old).answer }
    ensures buffer { buffer.new ≡ (copied store edition buffer.old).buffer }
{
    if overfull(store) {
        return no_copy(Kind::Value);
    }
    if edition == 0 {
        return no_copy(Kind::NotHeld);
    }
    match find(store, edition) {
        Some(at) => copy_kept(store.sheets[at], buffer),
        None => no_copy(Kind::NotHeld),
    }
}
