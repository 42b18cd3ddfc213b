// The calls on a store in byte form, of crate engine, each with its answer as one number. Crate axle_c exports them to C (include/axle.h).
#![tactic(auto)]

ghost use Rattle.std.specs.Prelude.{◌≡◌, ◌+◌, ◌/◌};
ghost use Rattle.calls.specs.Answers.{answer_of, ForetoldUnworn};
ghost use Rattle.encoding.specs.Bytes.{words_in, bytes_after};
ghost use Rattle.layout.specs.Words.{layout_for, layout_of};
ghost use Rattle.lists.specs.Lists.{KeepsWorn};
ghost use Rattle.edits.specs.Edits.{mark_stores};
ghost use Rattle.byte_calls.specs.Plans.{whole_bytes, byte_format, byte_insert, byte_several, byte_figures, byte_delete, byte_mark, byte_recover, byte_needed};
ghost use Rattle.byte_calls.specs.Interface.{code_of, counted_code, first_code, last_code, stores_code, needed_code, check_code, length_code, whole_code};

use calls::{Answer, Figures};
use layout::Refusal;
use stores::Outcome;

// What stands in front of the number of stores done or of a length, and of the number where stopped.
const DONE: u32 = 65536;

const STOPPED: u32 = 131072;

// The number of an answer.
fn code(answer: Answer) -> u32
    ensures { result ≡ code_of answer }
{
    match answer {
        Ok(Outcome::Done(n)) => DONE + u32::from(n),
        Ok(Outcome::Stopped(n)) => STOPPED + u32::from(n),
        Err(refusal) => u32::from(refusal.number()),
    }
}

// The number of a length, or of what is told beforehand.
fn told_code(told: Result<u16, Refusal>) -> u32
    ensures length { result ≡ counted_code told }
    ensures stores { result ≡ needed_code told }
{
    match told {
        Ok(n) => DONE + u32::from(n),
        Err(refusal) => u32::from(refusal.number()),
    }
}

// The number of the stores of a recovery.
fn needed_code(told: Result<u16, Refusal>) -> u32
    ensures { result ≡ needed_code told }
{
    match told {
        Ok(stores) => DONE + u32::from(stores),
        Err(refusal) => u32::from(refusal.number()),
    }
}

// The numbers of what is told of an insert beforehand: of the first cell, of the last cell and of the stores.
fn first_code(told: Result<Figures, Refusal>) -> u32
    ensures { result ≡ first_code told }
{
    told_code(told.map(|f| f.first))
}

fn last_code(told: Result<Figures, Refusal>) -> u32
    ensures { result ≡ last_code told }
{
    told_code(told.map(|f| f.last))
}

fn stores_code(told: Result<Figures, Refusal>) -> u32
    ensures { result ≡ stores_code told }
{
    told_code(told.map(|f| f.stores))
}

// Writes a store of empty lists.
pub fn axle_format(store: &mut [u8], lists: u16, nodes: u16, record_words: u16) -> u32
    ensures answer { result ≡ whole_code (byte_format (layout_for lists nodes record_words) store.old) }
    ensures bytes { store.new ≡ whole_bytes (byte_format (layout_for lists nodes record_words) store.old) store.old }
{
    u32::from(calls::number(&engine::format(store, lists, nodes, record_words)))
}

// Is the store sound?
pub fn axle_check(store: &[u8]) -> u32
    ensures { result ≡ check_code store.now }
{
    u32::from(calls::number(&engine::check(store)))
}

// How many records has the list?
pub fn axle_length(store: &[u8], list: u16) -> u32
    ensures { result ≡ length_code store.now list }
{
    told_code(engine::length(store, list))
}

// Inserts a record into the list at the position, in the first free cell from the starting cell on. Worn nodes are passed over.
pub fn axle_insert(
    store: &mut [u8],
    list: u16,
    position: u16,
    start: u16,
    rec: &[u8],
    allowance: u16,
) -> u32
    ensures answer { result ≡ code_of (answer_of (byte_insert store.old list position start rec.now) allowance) }
    ensures bytes { store.new ≡ bytes_after (byte_insert store.old list position start rec.now) allowance store.old }
    ensures worn { KeepsWorn (layout_of (words_in store.old)) (words_in store.old) (words_in store.new) }
{
    code(engine::insert(store, list, position, start, rec, allowance))
}

// Inserts several records into the list from the position on, in the first free cells from the starting cell on. Worn nodes are passed over.
pub fn axle_insert_several(
    store: &mut [u8],
    list: u16,
    position: u16,
    start: u16,
    records: &[u8],
    allowance: u16,
) -> u32
    ensures answer { result ≡ code_of (answer_of (byte_several store.old list position start records.now) allowance) }
    ensures bytes { store.new ≡ bytes_after (byte_several store.old list position start records.now) allowance store.old }
    ensures worn { KeepsWorn (layout_of (words_in store.old)) (words_in store.old) (words_in store.new) }
{
    code(engine::insert_several(store, list, position, start, records, allowance))
}

// The first cell that an insert of several records will use. Worn nodes are passed over.
pub fn axle_insert_several_first_cell(
    store: &[u8],
    list: u16,
    position: u16,
    start: u16,
    records: &[u8],
) -> u32
    ensures answer { result ≡ first_code (byte_figures store.now list position start records.now) }
    ensures worn { ForetoldUnworn (layout_of (words_in store.now)) (words_in store.now) (byte_figures store.now list position start records.now) }
{
    first_code(engine::insert_several_figures(store, list, position, start, records))
}

// The last cell that an insert of several records will use, in order of use. Worn nodes are passed over.
pub fn axle_insert_several_last_cell(
    store: &[u8],
    list: u16,
    position: u16,
    start: u16,
    records: &[u8],
) -> u32
    ensures answer { result ≡ last_code (byte_figures store.now list position start records.now) }
    ensures worn { ForetoldUnworn (layout_of (words_in store.now)) (words_in store.now) (byte_figures store.now list position start records.now) }
{
    last_code(engine::insert_several_figures(store, list, position, start, records))
}

// How many stores an insert of several records will make. Worn nodes are passed over.
pub fn axle_insert_several_stores(
    store: &[u8],
    list: u16,
    position: u16,
    start: u16,
    records: &[u8],
) -> u32
    ensures answer { result ≡ stores_code (byte_figures store.now list position start records.now) }
    ensures worn { ForetoldUnworn (layout_of (words_in store.now)) (words_in store.now) (byte_figures store.now list position start records.now) }
{
    stores_code(engine::insert_several_figures(store, list, position, start, records))
}

// Deletes the record of the list at the position.
pub fn axle_delete(store: &mut [u8], list: u16, position: u16, allowance: u16) -> u32
    ensures answer { result ≡ code_of (answer_of (byte_delete store.old list position) allowance) }
    ensures bytes { store.new ≡ bytes_after (byte_delete store.old list position) allowance store.old }
{
    code(engine::delete(store, list, position, allowance))
}

// Marks a free node as worn: no insert will take it, and recovery lets it be.
pub fn axle_mark_worn(store: &mut [u8], cell: u16) -> u32
    ensures answer { result ≡ code_of (answer_of (byte_mark store.old cell) mark_stores) }
    ensures bytes { store.new ≡ bytes_after (byte_mark store.old cell) mark_stores store.old }
{
    code(engine::mark_worn(store, cell))
}

// Recovers the store by correction: the words that a cut insert or delete left wrong, or one altered word in a list, or its count and an
// identifier.
pub fn axle_recover(store: &mut [u8], allowance: u16) -> u32
    ensures answer { result ≡ code_of (answer_of (byte_recover store.old) allowance) }
    ensures bytes { store.new ≡ bytes_after (byte_recover store.old) allowance store.old }
{
    code(engine::recover(store, allowance))
}

// How many stores a recovery will make.
pub fn axle_recover_stores(store: &[u8]) -> u32
    ensures { result ≡ needed_code (byte_needed store.now) }
{
    needed_code(engine::recover_stores(store))
}
