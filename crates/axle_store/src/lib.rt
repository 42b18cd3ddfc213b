// The axle store's calls on lent words. Each asks its questions in the order of docs/FORMAT.md; the first no decides, and a
// refused call stores nothing. No call asks anything of its caller: the words may hold anything, at any length. Crate calls has their
// definitions, crate engine their work.
#![tactic(auto)]

ghost use Rattle.std.specs.Prelude.{◌≡◌, ◌+◌, ◌*◌, length};
ghost use Rattle.stores.specs.Stores.{words_after, plan_number, made_by};
ghost use Rattle.layout.specs.Words.{layout_for, layout_of};
ghost use Rattle.lists.specs.Lists.{KeepsWorn};
ghost use Rattle.edits.specs.Edits.{mark_stores};
ghost use Rattle.recovery.specs.Plan.{recover_plan};
ghost use Rattle.calls.specs.Answers.{checked_number, formatted_number, counted_number, counted_length, answer_of, answer_number, answer_stores, needed_of, needed_number, needed_stores, foretold_number, foretold_stores, ForetoldUnworn};
ghost use Rattle.calls.specs.Calls.{format_answer, format_number, format_words, check_answer, check_number, length_answer, length_number, length_value, read_number, read_words, read_start, insert_plan, several_plan, several_figures, delete_plan, mark_plan, recover_needed};

use calls::{Answer, Figures};
use layout::{Layout, Refusal};
use requests::Request;

// Writes a store of empty lists.
pub fn format(words: &mut [u16], lists: u16, nodes: u16, width: u16) -> Result<(), Refusal>
    ensures answer { result ≡ format_answer (layout_for lists nodes width) words.old }
    ensures words { words.new ≡ format_words (layout_for lists nodes width) words.old }
    ensures number { formatted_number result ≡ format_number (layout_for lists nodes width) words.old }
{
    engine::format(words, lists, nodes, width)
}

// Is the store sound?
pub fn check(words: &[u16]) -> Result<(), Refusal>
    ensures answer { result ≡ check_answer words.now }
    ensures number { checked_number result ≡ check_number words.now }
{
    engine::check(words)
}

// How many records has the list?
pub fn length(words: &[u16], list: u16) -> Result<u16, Refusal>
    ensures answer { result ≡ length_answer words.now list }
    ensures number { counted_number result ≡ length_number words.now list }
    ensures value { counted_length result ≡ length_value words.now list }
{
    engine::length(words, list)
}

// Read's questions: the number of the first no, 0 for none.
pub fn read_number(words: &[u16], list: u16, position: u16) -> u16
    ensures { result ≡ read_number words.now list position }
{
    match sites::look(words, Request::Member(list, position)) {
        Ok(_) => 0,
        Err(refusal) => refusal.number(),
    }
}

// The record of the list at the position, as a part of the lent words: empty if refused.
pub fn read(words: &[u16], list: u16, position: u16) -> &[u16]
    ensures contents { result.now ≡ read_words words.now list position }
    ensures place { (result.ref_ptr.0 ≡ words.entry.ref_ptr.0) × (result.ref_ptr.1 ≡ read_start words.now list position * 2 + words.entry.ref_ptr.1) }
{
    let Ok(look) = sites::look(words, Request::Member(list, position)) else {
        return &words[0..0];
    };
    let a = look.layout.node(look.site.cell) + Layout::LINK_WORDS;
    let e = a + usize::from(look.layout.width);
    &words[a..e]
}

// Inserts a record into the list at the position, in the first free cell from the starting cell on. Worn nodes are passed over.
pub fn insert(
    words: &mut [u16],
    list: u16,
    position: u16,
    start: u16,
    rec: &[u16],
    allowance: u16,
) -> Answer
    ensures answer { result ≡ answer_of (insert_plan words.old list position start rec.now) allowance }
    ensures words { words.new ≡ words_after (insert_plan words.old list position start rec.now) allowance words.old }
    ensures number { answer_number result ≡ plan_number (insert_plan words.old list position start rec.now) }
    ensures stores { answer_stores result ≡ length (made_by (insert_plan words.old list position start rec.now) allowance) }
    ensures worn { KeepsWorn (layout_of words.old) words.old words.new }
{
    engine::insert(words, list, position, start, rec, allowance)
}

// Inserts several records into the list from the position on, in the first free cells from the starting cell on. Worn nodes are passed over.
pub fn insert_several(
    words: &mut [u16],
    list: u16,
    position: u16,
    start: u16,
    records: &[u16],
    allowance: u16,
) -> Answer
    ensures answer { result ≡ answer_of (several_plan words.old list position start records.now) allowance }
    ensures words { words.new ≡ words_after (several_plan words.old list position start records.now) allowance words.old }
    ensures number { answer_number result ≡ plan_number (several_plan words.old list position start records.now) }
    ensures stores { answer_stores result ≡ length (made_by (several_plan words.old list position start records.now) allowance) }
    ensures worn { KeepsWorn (layout_of words.old) words.old words.new }
{
    engine::insert_several(words, list, position, start, records, allowance)
}

// What an insert of several records will do: the first and the last cell that it uses, in order of use, and how many stores it makes. Nothing
// is stored. Worn nodes are passed over.
pub fn insert_several_figures(
    words: &[u16],
    list: u16,
    position: u16,
    start: u16,
    records: &[u16],
) -> Result<Figures, Refusal>
    ensures figures { result ≡ several_figures words.now list position start records.now }
    ensures number { foretold_number result ≡ plan_number (several_plan words.now list position start records.now) }
    ensures stores { foretold_stores result ≡ needed_stores (needed_of (several_plan words.now list position start records.now)) }
    ensures worn { ForetoldUnworn (layout_of words.now) words.now result }
{
    engine::insert_several_figures(words, list, position, start, records)
}

// Deletes the record of the list at the position.
pub fn delete(words: &mut [u16], list: u16, position: u16, allowance: u16) -> Answer
    ensures answer { result ≡ answer_of (delete_plan words.old list position) allowance }
    ensures words { words.new ≡ words_after (delete_plan words.old list position) allowance words.old }
    ensures number { answer_number result ≡ plan_number (delete_plan words.old list position) }
    ensures stores { answer_stores result ≡ length (made_by (delete_plan words.old list position) allowance) }
{
    engine::delete(words, list, position, allowance)
}

// Marks a free node as worn: no insert will take it, and recovery lets it be.
pub fn mark_worn(words: &mut [u16], cell: u16) -> Answer
    ensures answer { result ≡ answer_of (mark_plan words.old cell) mark_stores }
    ensures words { words.new ≡ words_after (mark_plan words.old cell) mark_stores words.old }
    ensures number { answer_number result ≡ plan_number (mark_plan words.old cell) }
    ensures stores { answer_stores result ≡ length (made_by (mark_plan words.old cell) mark_stores) }
{
    engine::mark_worn(words, cell)
}

// Recovers the store by correction: the words that a cut insert or delete left wrong, or one altered word in a list, or its count and an
// identifier.
pub fn recover(words: &mut [u16], allowance: u16) -> Answer
    ensures answer { result ≡ answer_of (recover_plan words.old) allowance }
    ensures words { words.new ≡ words_after (recover_plan words.old) allowance words.old }
    ensures number { answer_number result ≡ plan_number (recover_plan words.old) }
    ensures stores { answer_stores result ≡ length (made_by (recover_plan words.old) allowance) }
{
    engine::recover(words, allowance)
}

// How many stores a recovery will make. Nothing is stored.
pub fn recover_stores(words: &[u16]) -> Result<u16, Refusal>
    ensures stores { result ≡ recover_needed words.now }
    ensures number { needed_number result ≡ plan_number (recover_plan words.now) }
{
    engine::recover_stores(words)
}
