// The C interface (include/axle.h): exports the calls of crate axle under the same names, with the same clauses. It is a crate of its own
// since other crates stand on axle, and none can stand on a static library.
#![tactic(auto)]

ghost use Rattle.std.specs.Prelude.{◌≡◌};
ghost use Rattle.calls.specs.Answers.{answer_of, ForetoldUnworn};
ghost use Rattle.encoding.specs.Bytes.{words_in, bytes_after};
ghost use Rattle.layout.specs.Words.{layout_for, layout_of};
ghost use Rattle.lists.specs.Lists.{KeepsWorn};
ghost use Rattle.edits.specs.Edits.{mark_stores};
ghost use Rattle.byte_calls.specs.Plans.{whole_bytes, byte_format, byte_insert, byte_several, byte_figures, byte_delete, byte_mark, byte_recover, byte_needed};
ghost use Rattle.byte_calls.specs.Interface.{code_of, first_code, last_code, stores_code, needed_code, check_code, length_code, whole_code};

// Writes a store of empty lists.
#[unsafe(no_mangle)]
pub extern "C" fn axle_format(store: &mut [u8], lists: u16, nodes: u16, record_words: u16) -> u32
    ensures answer { result ≡ whole_code (byte_format (layout_for lists nodes record_words) store.old) }
    ensures bytes { store.new ≡ whole_bytes (byte_format (layout_for lists nodes record_words) store.old) store.old }
{
    axle::axle_format(store, lists, nodes, record_words)
}

// Is the store sound?
#[unsafe(no_mangle)]
pub extern "C" fn axle_check(store: &[u8]) -> u32
    ensures { result ≡ check_code store.now }
{
    axle::axle_check(store)
}

// How many records has the list?
#[unsafe(no_mangle)]
pub extern "C" fn axle_length(store: &[u8], list: u16) -> u32
    ensures { result ≡ length_code store.now list }
{
    axle::axle_length(store, list)
}

// Inserts a record into the list at the position, in the first free cell from the starting cell on. Worn nodes are passed over.
#[unsafe(no_mangle)]
pub extern "C" fn axle_insert(
    store: &mut [u8],
    list: u16,
    position: u16,
    start: u16,
    rec: &[u8],
    allowance: u16,
) -> u32
    ensures answer { result ≡ code_of (answer_of (byte_insert store.old list position start rec.now) allowance) }
    ensures bytes { store.new ≡ bytes_after (byte_insert store.old list position start rec.now) allowance store.old }
    ensures worn { KeepsWorn (layout_of (words_in store.old)) (words_in store.old) (words_in store.new) }
{
    axle::axle_insert(store, list, position, start, rec, allowance)
}

// Inserts several records into the list from the position on, in the first free cells from the starting cell on. Worn nodes are passed over.
#[unsafe(no_mangle)]
pub extern "C" fn axle_insert_several(
    store: &mut [u8],
    list: u16,
    position: u16,
    start: u16,
    records: &[u8],
    allowance: u16,
) -> u32
    ensures answer { result ≡ code_of (answer_of (byte_several store.old list position start records.now) allowance) }
    ensures bytes { store.new ≡ bytes_after (byte_several store.old list position start records.now) allowance store.old }
    ensures worn { KeepsWorn (layout_of (words_in store.old)) (words_in store.old) (words_in store.new) }
{
    axle::axle_insert_several(store, list, position, start, records, allowance)
}

// The first cell that an insert of several records will use. Worn nodes are passed over.
#[unsafe(no_mangle)]
pub extern "C" fn axle_insert_several_first_cell(
    store: &[u8],
    list: u16,
    position: u16,
    start: u16,
    records: &[u8],
) -> u32
    ensures answer { result ≡ first_code (byte_figures store.now list position start records.now) }
    ensures worn { ForetoldUnworn (layout_of (words_in store.now)) (words_in store.now) (byte_figures store.now list position start records.now) }
{
    axle::axle_insert_several_first_cell(store, list, position, start, records)
}

// The last cell that an insert of several records will use, in order of use. Worn nodes are passed over.
#[unsafe(no_mangle)]
pub extern "C" fn axle_insert_several_last_cell(
    store: &[u8],
    list: u16,
    position: u16,
    start: u16,
    records: &[u8],
) -> u32
    ensures answer { result ≡ last_code (byte_figures store.now list position start records.now) }
    ensures worn { ForetoldUnworn (layout_of (words_in store.now)) (words_in store.now) (byte_figures store.now list position start records.now) }
{
    axle::axle_insert_several_last_cell(store, list, position, start, records)
}

// How many stores an insert of several records will make. Worn nodes are passed over.
#[unsafe(no_mangle)]
pub extern "C" fn axle_insert_several_stores(
    store: &[u8],
    list: u16,
    position: u16,
    start: u16,
    records: &[u8],
) -> u32
    ensures answer { result ≡ stores_code (byte_figures store.now list position start records.now) }
    ensures worn { ForetoldUnworn (layout_of (words_in store.now)) (words_in store.now) (byte_figures store.now list position start records.now) }
{
    axle::axle_insert_several_stores(store, list, position, start, records)
}

// Deletes the record of the list at the position.
#[unsafe(no_mangle)]
pub extern "C" fn axle_delete(store: &mut [u8], list: u16, position: u16, allowance: u16) -> u32
    ensures answer { result ≡ code_of (answer_of (byte_delete store.old list position) allowance) }
    ensures bytes { store.new ≡ bytes_after (byte_delete store.old list position) allowance store.old }
{
    axle::axle_delete(store, list, position, allowance)
}

// Marks a free node as worn: no insert will take it, and recovery lets it be.
#[unsafe(no_mangle)]
pub extern "C" fn axle_mark_worn(store: &mut [u8], cell: u16) -> u32
    ensures answer { result ≡ code_of (answer_of (byte_mark store.old cell) mark_stores) }
    ensures bytes { store.new ≡ bytes_after (byte_mark store.old cell) mark_stores store.old }
{
    axle::axle_mark_worn(store, cell)
}

// Recovers the store by correction: the words that a cut insert or delete left wrong, or one altered word in a list, or its count and an
// identifier.
#[unsafe(no_mangle)]
pub extern "C" fn axle_recover(store: &mut [u8], allowance: u16) -> u32
    ensures answer { result ≡ code_of (answer_of (byte_recover store.old) allowance) }
    ensures bytes { store.new ≡ bytes_after (byte_recover store.old) allowance store.old }
{
    axle::axle_recover(store, allowance)
}

// How many stores a recovery will make.
#[unsafe(no_mangle)]
pub extern "C" fn axle_recover_stores(store: &[u8]) -> u32
    ensures { result ≡ needed_code (byte_needed store.now) }
{
    axle::axle_recover_stores(store)
}
