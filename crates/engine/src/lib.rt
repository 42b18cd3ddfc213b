// The calls on what is lent, in either form. Each asks its questions, and answers and stores what crate calls says; what it stores, it stores
// in what is lent. (A refusal is handed on by `?`; where a must-fail edit answers otherwise, by an arm of its own.)
#![tactic(auto)]

ghost use Rattle.std.specs.Prelude.{◌≡◌, length};
ghost use Rattle.stores.specs.Stores.{left_by, whole_by};
ghost use Rattle.layout.specs.Words.{layout_for, layout_of};
ghost use Rattle.lists.specs.Lists.{KeepsWorn};
ghost use Rattle.edits.specs.Edits.{mark_stores};
ghost use Rattle.recovery.specs.Plan.{recover_plan};
ghost use Rattle.calls.specs.Answers.{formatted_of, answer_of, ForetoldUnworn};
ghost use Rattle.calls.specs.Calls.{format_plan, check_answer, length_answer, insert_plan, several_plan, several_figures, delete_plan, mark_plan, recover_needed};
ghost use Rattle.engine.specs.Lent.{planned, answered, record_in};

use calls::{Answer, Figures};
use form::Form;
use layout::{Layout, Refusal};
use requests::Request;
use stores::Outcome;
use walks::Store;

// The number of a record's words, 0 if its elements are not whole words.
fn record_size<E: Form>(rec: &[E]) -> usize
    ensures { result ≡ length (record_in (E.whole rec.now) (E.words_in rec.now)) }
{
    if E::is_whole(rec) { E::size(rec) } else { 0 }
}

// Writes a store of empty lists.
pub fn format<E: Form>(lent: &mut [E], lists: u16, nodes: u16, width: u16) -> Result<(), Refusal>
    ensures answer { result ≡ formatted_of (planned (E.whole lent.old) (format_plan (layout_for lists nodes width) (E.words_in lent.old))) }
    ensures lent { lent.new ≡ whole_by E.after (planned (E.whole lent.old) (format_plan (layout_for lists nodes width) (E.words_in lent.old))) lent.old }
{
    if !E::is_whole(lent) {
        return Err(Refusal::Size);
    }
    let l = Layout {
        version: Layout::NEWEST,
        lists,
        nodes,
        width,
    };
    if !l.in_range() {
        return Err(Refusal::Range);
    }
    if E::size(lent) != l.size() {
        return Err(Refusal::Size);
    }
    formats::fill(lent, l);
    Ok(())
}

// Is the store sound?
pub fn check<E: Form>(lent: &[E]) -> Result<(), Refusal>
    ensures { result ≡ answered (E.whole lent.now) (check_answer (E.words_in lent.now)) }
{
    match sites::look(lent, Request::Check) {
        Ok(_) => Ok(()),
        Err(refusal) => Err(refusal),
    }
}

// How many records has the list?
pub fn length<E: Form>(lent: &[E], list: u16) -> Result<u16, Refusal>
    ensures { result ≡ answered (E.whole lent.now) (length_answer (E.words_in lent.now) list) }
{
    let look = sites::look(lent, Request::Whole(list))?;
    Ok(look.site.count)
}

// Inserts a record. Worn nodes are passed over.
pub fn insert<E: Form>(
    lent: &mut [E],
    list: u16,
    position: u16,
    start: u16,
    rec: &[E],
    allowance: u16,
) -> Answer
    ensures answer { result ≡ answer_of (planned (E.whole lent.old) (insert_plan (E.words_in lent.old) list position start (record_in (E.whole rec.now) (E.words_in rec.now)))) allowance }
    ensures lent { lent.new ≡ left_by E.after (planned (E.whole lent.old) (insert_plan (E.words_in lent.old) list position start (record_in (E.whole rec.now) (E.words_in rec.now)))) allowance lent.old }
    ensures worn { KeepsWorn (layout_of (E.words_in lent.old)) (E.words_in lent.old) (E.words_in lent.new) }
{
    let look = sites::look(lent, Request::Gap(list, position, start, record_size(rec)))?;
    Ok(editing::insert_at(lent, look.layout, list, look.site, rec, allowance))
}

// Inserts several records. Worn nodes are passed over.
pub fn insert_several<E: Form>(
    lent: &mut [E],
    list: u16,
    position: u16,
    start: u16,
    records: &[E],
    allowance: u16,
) -> Answer
    ensures answer { result ≡ answer_of (planned (E.whole lent.old) (several_plan (E.words_in lent.old) list position start (record_in (E.whole records.now) (E.words_in records.now)))) allowance }
    ensures lent { lent.new ≡ left_by E.after (planned (E.whole lent.old) (several_plan (E.words_in lent.old) list position start (record_in (E.whole records.now) (E.words_in records.now)))) allowance lent.old }
    ensures worn { KeepsWorn (layout_of (E.words_in lent.old)) (E.words_in lent.old) (E.words_in lent.new) }
{
    let look = sites::look(
        lent,
        Request::Gaps(list, position, start, record_size(records)),
    )?;
    Ok(editing::insert_all(lent, look.layout, list, look.site, records, allowance))
}

// What an insert of several records will do. Worn nodes are passed over.
pub fn insert_several_figures<E: Form>(
    lent: &[E],
    list: u16,
    position: u16,
    start: u16,
    records: &[E],
) -> Result<Figures, Refusal>
    ensures figures { result ≡ answered (E.whole lent.now) (several_figures (E.words_in lent.now) list position start (record_in (E.whole records.now) (E.words_in records.now))) }
    ensures worn { ForetoldUnworn (layout_of (E.words_in lent.now)) (E.words_in lent.now) result }
{
    let size = record_size(records);
    let look = sites::look(lent, Request::Whole(list))?;
    let s = Store::of(lent, look.layout);
    let ends = match sites::ends(&s, look.site.count, position, start, size) {
        Ok(ends) => ends,
        Err(refusal) => return Err(refusal),
    };
    Ok(Figures {
        first: ends.first,
        last: ends.last,
        stores: edits::several_stores(look.layout, size),
    })
}

// Deletes a record.
pub fn delete<E: Form>(lent: &mut [E], list: u16, position: u16, allowance: u16) -> Answer
    ensures answer { result ≡ answer_of (planned (E.whole lent.old) (delete_plan (E.words_in lent.old) list position)) allowance }
    ensures lent { lent.new ≡ left_by E.after (planned (E.whole lent.old) (delete_plan (E.words_in lent.old) list position)) allowance lent.old }
{
    let look = sites::look(lent, Request::Member(list, position))?;
    Ok(editing::delete_at(lent, look.layout, list, look.site, allowance))
}

// Marks a free node as worn.
pub fn mark_worn<E: Form>(lent: &mut [E], cell: u16) -> Answer
    ensures answer { result ≡ answer_of (planned (E.whole lent.old) (mark_plan (E.words_in lent.old) cell)) mark_stores }
    ensures lent { lent.new ≡ left_by E.after (planned (E.whole lent.old) (mark_plan (E.words_in lent.old) cell)) mark_stores lent.old }
{
    let look = sites::look(lent, Request::Mark(cell))?;
    E::put(lent, look.layout.node(look.site.cell), Layout::WORN);
    Ok(Outcome::Done(1))
}

// Recovers the store by correction.
pub fn recover<E: Form>(lent: &mut [E], allowance: u16) -> Answer
    ensures answer { result ≡ answer_of (planned (E.whole lent.old) (recover_plan (E.words_in lent.old))) allowance }
    ensures lent { lent.new ≡ left_by E.after (planned (E.whole lent.old) (recover_plan (E.words_in lent.old))) allowance lent.old }
{
    let l = sites::open(lent)?;
    recovering::recover_in(lent, l, allowance)
}

// How many stores a recovery will make.
pub fn recover_stores<E: Form>(lent: &[E]) -> Result<u16, Refusal>
    ensures { result ≡ answered (E.whole lent.now) (recover_needed (E.words_in lent.now)) }
{
    match sites::open(lent) {
        Ok(layout) => recovering::stores_in(&Store::of(lent, layout)),
        Err(shut) => Err(shut),
    }
}
